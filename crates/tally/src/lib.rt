// The active calls of each site and level counted, and the rooms that they leave. An inner crate: the library's own crates alone call it.
#![tactic(auto)]

ghost use Rattle.std.specs.Prelude.{◌≡◌, ◌*◌, length};
ghost use Rattle.ids.specs.Limits.{sites, most_threads};
ghost use Rattle.rooms.specs.Rooms.{NoLimit};
ghost use Rattle.tally.specs.Tally.{Raisable, Raises, Countable, Counts, KeptTested, KeptTest, SiteRoomable, SiteRooms, Roomable, RoomsOf};

use ids::Site;
use model::Plan;
use rooms::Rooms;
use table::Table;

// One call more, at its level and site where it is active; none where a byte could not hold the count.
fn raise(key: u16, node: u8, plan: &Plan, counts: &mut [u8]) -> Option<()>
    requires { Raisable key node plan.now.places plan.now.levels counts.old }
    ensures { Raises key node plan.now.places plan.now.levels counts.old counts.new result }
{
    if key != 0 {
        return Some(());
    }
    let site = plan.places[node as usize];
    let at = Site::THREADS * site as usize + plan.levels[node as usize] as usize;
    counts[at] = counts[at].checked_add(1)?;
    Some(())
}

// The active calls of each site and level; none where a byte could not hold a count.
pub fn count(table: &Table, plan: &Plan) -> Option<[u8; Site::COUNT * Site::THREADS]>
    requires { Countable table.now.keys table.now.nodes table.now.used plan.now.places plan.now.levels }
    ensures { Counts table.now.keys table.now.nodes table.now.used plan.now.places plan.now.levels result }
{
    let mut counts = [0; Site::COUNT * Site::THREADS];
    for i in 0..table.used {
        raise(table.keys[i], table.nodes[i], plan, &mut counts)?;
    }
    Some(counts)
}

// Whether these are the counts of the active calls.
pub fn kept(counts: &[u8; Site::COUNT * Site::THREADS], table: &Table, plan: &Plan) -> bool
    requires { KeptTested table.now.keys table.now.nodes table.now.used plan.now.places plan.now.levels }
    ensures { KeptTest counts.now table.now.keys table.now.nodes table.now.used plan.now.places plan.now.levels result }
{
    let Some(counted) = count(table, plan) else {
        return false;
    };
    *counts == counted
}

// The rooms of a site, from its highest level down; none where it is not lawful.
fn site_rooms(counts: &[u8], base: usize, threads: u8, rooms: &mut Rooms) -> Option<()>
    requires { SiteRoomable counts.now base threads rooms.old.left }
    ensures { SiteRooms counts.now base threads rooms.old.left rooms.new.left result }
{
    let most = threads as usize;
    let mut above = 0;
    for k in (0..most).rev() {
        above += counts[base + k] as usize;
        rooms.left[base + k] = (most - k).checked_sub(above)? as u8;
    }
    Some(())
}

// The rooms of all sites, where no level has a limit yet; none where a site is not lawful.
pub fn fill_rooms(counts: &[u8], plan: &Plan, rooms: &mut Rooms) -> Option<()>
    requires counted { Roomable counts.now plan.now.threads }
    requires unlimited { NoLimit rooms.old }
    ensures { RoomsOf counts.now plan.now.threads rooms.new result }
{
    for site in 0..Site::COUNT {
        site_rooms(counts, Site::THREADS * site, plan.threads[site], rooms)?;
    }
    Some(())
}
