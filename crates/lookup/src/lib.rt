// "The table of open calls is searched by ticket": a lent slice of call records, looked through for a ticket. An inner
// crate: the library's own crates alone call it.
#![tactic(auto)]

ghost use Rattle.std.specs.Prelude.{◌≡◌};
ghost use Rattle.lookup.specs.Lookup.{place_in, placed};

use ids::Ticket;
use value::{Call, Net};

// The first place below `used`, and inside the table, whose call has this ticket.
// kept: its promise is of any count, also one past the table's end, as a net that is handed in may have.
pub fn find(calls: &[Call], used: usize, ticket: Ticket) -> Option<usize>
    ensures { result ≡ placed used (place_in calls.now used ticket.0) }
{
    calls
        .iter()
        .take(used)
        .position(|call| call.ticket == ticket)
}

// The same of a net: its table, by itself in a local, is lent to the search.
pub fn place(net: Net, ticket: Ticket) -> Option<usize>
    ensures { result ≡ placed net.used (place_in net.calls net.used ticket.0) }
{
    let calls = net.calls;
    find(&calls, net.used, ticket)
}
