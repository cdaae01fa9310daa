// How far each level of each site is from full inside a run, T - k - A[k], 255 at or above T: a level is full where it is 0, and its room is the smallest up
// to it. An admission takes one from its level and those below it, and a return gives it back. An inner crate: the library's own crates alone call it.
#![tactic(auto)]

ghost use Rattle.std.specs.Prelude.{◌≡◌, suc, ◌+◌, ◌*◌};
ghost use Rattle.ids.specs.Limits.{most_threads};
ghost use Rattle.lists.specs.Count.{first, last, smallest};
ghost use Rattle.lists.specs.Fill.{Filled, renewed};
ghost use Rattle.rooms.specs.Rooms.{room_in, no_room, one_less, one_more, base_of, Taking, Giving, Limited, Ranged, NoLimit};

use ids::Site;

// One taken from the room of a level and of those below it. Here and below these are any numbers, and what is level k's stands k places behind a base.
pub fn take(rooms: &mut [u8], base: usize, level: usize)
    requires { Taking rooms.old base level }
    ensures { Filled (renewed one_less rooms.old) base (base + (level + 1)) rooms.old rooms.new }
{
    for k in 0..level + 1 {
        rooms[base + k] -= 1;
    }
}

// One given back to each of them.
pub fn give(rooms: &mut [u8], base: usize, level: usize)
    requires { Giving rooms.old base level }
    ensures { Filled (renewed one_more rooms.old) base (base + (level + 1)) rooms.old rooms.new }
{
    for k in 0..level + 1 {
        rooms[base + k] += 1;
    }
}

// The lowest full level, or the threads where no level is full. All levels are looked at, without an exit.
pub fn limit(rooms: &[u8], base: usize, threads: u8) -> u8
    requires { Limited rooms.now base threads }
    ensures { result ≡ first threads (no_room rooms.now base) }
{
    let mut low = threads;
    for k in 0..Site::THREADS {
        let room = rooms[base + k];
        let lowest_here = if room == 0 { k as u8 } else { threads };
        low = low.min(lowest_here);
    }
    low
}

// The highest full level at or below one, read downwards from it; 0 where there is none.
pub fn blocking(rooms: &[u8], base: usize, level: u8) -> u8
    requires { Ranged rooms.now base level }
    ensures { result ≡ last (suc level) (no_room rooms.now base) }
{
    for k in (1..level + 1).rev() {
        if rooms[base + k as usize] == 0 {
            return k;
        }
    }
    0
}

// The room of a level: the smallest number up to it.
pub fn smallest(rooms: &[u8], base: usize, level: u8) -> u8
    requires { Ranged rooms.now base level }
    ensures { result ≡ smallest level (room_in rooms.now base) }
{
    let mut low = rooms[base];
    for k in 1..level as usize + 1 {
        low = low.min(rooms[base + k]);
    }
    low
}

// What is level k's of a site stands k places behind the site's base.
#[derive(Clone, Copy)]
pub struct Rooms {
    pub left: [u8; Site::COUNT * Site::THREADS],
}

impl Rooms {
    // No level has a limit yet.
    pub fn without_limit() -> Rooms
        ensures { NoLimit result }
    {
        Rooms {
            left: [255; Site::COUNT * Site::THREADS],
        }
    }

    // Where a site's levels begin.
    pub fn base(site: u8) -> usize
        ensures { result ≡ base_of site }
    {
        Site::THREADS * site as usize
    }

    // A thread is taken by a call of a level.
    pub fn take(&mut self, site: u8, level: u8)
        requires { Taking self.old.left (base_of site) level }
        ensures { Filled (renewed one_less self.old.left) (base_of site) (base_of site + (level + 1)) self.old.left self.new.left }
    {
        take(&mut self.left, Rooms::base(site), level as usize);
    }

    // A thread comes back from a call of a level.
    pub fn give(&mut self, site: u8, level: u8)
        requires { Giving self.old.left (base_of site) level }
        ensures { Filled (renewed one_more self.old.left) (base_of site) (base_of site + (level + 1)) self.old.left self.new.left }
    {
        give(&mut self.left, Rooms::base(site), level as usize);
    }

    // The lowest full level, or the threads where no level is full: how many levels are admissible.
    pub fn limit(&self, site: u8, threads: u8) -> u8
        requires { Limited self.now.left (base_of site) threads }
        ensures { result ≡ first threads (no_room self.now.left (base_of site)) }
    {
        limit(&self.left, Rooms::base(site), threads)
    }

    // The highest full level at or below one; 0 where there is none.
    pub fn blocking(&self, site: u8, level: u8) -> u8
        requires { Ranged self.now.left (base_of site) level }
        ensures { result ≡ last (suc level) (no_room self.now.left (base_of site)) }
    {
        blocking(&self.left, Rooms::base(site), level)
    }

    // The room of a level: the smallest number up to it.
    pub fn smallest(&self, site: u8, level: u8) -> u8
        requires { Ranged self.now.left (base_of site) level }
        ensures { result ≡ smallest level (room_in self.now.left (base_of site)) }
    {
        smallest(&self.left, Rooms::base(site), level)
    }
}
