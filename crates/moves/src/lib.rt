// The commands inside a run, over the table of open calls and the rooms of the sites. An inner crate: the library's own crates alone call it.
#![tactic(auto)]

ghost use Rattle.std.specs.Prelude.{◌≡◌, ◌+◌, ◌-◌};
ghost use Rattle.moves.specs.Held.{arrays_of, Openable, Opens, Closable, Closes, Servable, Serves};

use rooms::Rooms;
use table::Table;

// The open calls of a net and its rooms.
#[derive(Clone, Copy)]
pub struct Running {
    pub table: Table,
    pub rooms: Rooms,
}

impl Running {
    // Opens a call at a node: active where its level may be admitted, else waiting, last at its site. Its key is 0 already where it is active.
    // kept: a struct of the newcomer's numbers would be filled in `steps` and emptied here, line for line what stands now.
    pub fn open(
        &mut self,
        parent: u16,
        ticket: u16,
        node: u8,
        site: u8,
        level: u8,
        threads: u8,
    ) -> bool
        requires { Openable (arrays_of self.old) self.old.table.used parent ticket node site level threads }
        ensures opened { Opens (arrays_of self.old) (arrays_of self.new) result self.old.table.used parent ticket node site level threads }
        ensures counted { self.new.table.used ≡ self.old.table.used + 1 }
    {
        let limit = self.rooms.limit(site, threads);
        let used = self.table.used;
        self.table.tickets[used] = ticket;
        self.table.parents[used] = parent;
        self.table.nodes[used] = node;
        self.table.used = used + 1;
        if level < limit {
            self.rooms.take(site, level);
            return true;
        }
        self.table.keys[used] = (Rooms::base(site) + level as usize + 1) as u16;
        false
    }

    // Closes the call at a place: its numbers go, the calls behind it move up, and its thread comes back.
    pub fn close(&mut self, at: usize, site: u8, level: u8)
        requires { Closable (arrays_of self.old) self.old.table.used at site level }
        ensures closed { Closes (arrays_of self.old) (arrays_of self.new) self.old.table.used at site level }
        ensures counted { self.new.table.used ≡ self.old.table.used - 1 }
    {
        self.table.remove(at);
        self.rooms.give(site, level);
    }

    // Gives a thread to the oldest call that waits at a site and may be admitted; answers its ticket.
    pub fn serve(&mut self, site: u8, threads: u8) -> Option<u16>
        requires { Servable (arrays_of self.old) self.old.table.used site threads }
        ensures served { Serves (arrays_of self.old) (arrays_of self.new) result self.old.table.used site threads }
        ensures counted { self.new.table.used ≡ self.old.table.used }
    {
        let base = Rooms::base(site);
        let top = base + self.rooms.limit(site, threads) as usize;
        let next = self.table.waiter(base as u16, top as u16)?;
        let level = self.table.keys[next] as usize - base - 1;
        self.rooms.take(site, level as u8);
        self.table.keys[next] = 0;
        Some(self.table.tickets[next])
    }
}
