// A net taken apart into the table of a run, and its table put together again from that. An inner crate: the library's own crates alone call it.
#![tactic(auto)]

ghost use Rattle.std.specs.Prelude.{◌≡◌, ◌≤◌};
ghost use Rattle.ids.specs.Limits.{most_open};
ghost use Rattle.table.specs.Places.{Nothing, Padded};
ghost use Rattle.value.specs.View.{call_of};
ghost use Rattle.apart.specs.Apart.{key_in, Numbers, Known, Keys, Beside, Joinable, Joins};

use ids::{Node, Site, Ticket};
use model::Plan;
use table::Table;
use value::{Call, Net};

// A call's key: 0 where it is active, else one more than the place of its room.
fn key(call: Call, plan: &Plan) -> u16
    ensures { result ≡ key_in plan.now.places plan.now.levels (call_of call) }
{
    if call.active {
        return 0;
    }
    let node = call.node.0 as usize;
    let base = Site::THREADS as u16 * record::byte(&plan.places, node) as u16;
    base + record::byte(&plan.levels, node) as u16 + 1
}

// The numbers of the open calls into a run's table, which holds none yet.
pub fn numbers(net: &Net, table: &mut Table)
    requires few { net.now.used ≤ most_open }
    requires nothing { Nothing table.old }
    ensures numbered { Numbers net.now table.new.tickets table.new.parents table.new.nodes }
    ensures keyless { table.new.keys ≡ table.old.keys }
    ensures counted { table.new.used ≡ net.now.used }
{
    for i in 0..net.used {
        let call = net.calls[i];
        table.tickets[i] = call.ticket.0;
        table.parents[i] = call.parent.0;
        table.nodes[i] = call.node.0;
    }
    table.used = net.used;
}

// Their keys beside them; they are told where every node has a record.
pub fn keys(net: &Net, table: &mut Table)
    requires few { net.now.used ≤ most_open }
    requires keyless { Padded table.old.keys 0 }
    ensures keyed { Known net.now → Keys net.now table.new.keys }
    ensures beside { Beside table.old table.new }
{
    for i in 0..net.used {
        table.keys[i] = key(net.calls[i], &net.plan);
    }
}

// Both, for a net whose calls are not tested in between.
pub fn fill(net: &Net, table: &mut Table)
    requires few { net.now.used ≤ most_open }
    requires nothing { Nothing table.old }
    ensures numbered { Numbers net.now table.new.tickets table.new.parents table.new.nodes }
    ensures keyed { Known net.now → Keys net.now table.new.keys }
    ensures counted { table.new.used ≡ net.now.used }
{
    numbers(net, table);
    keys(net, table);
}

// The calls that a run's table holds, as a net has them.
pub fn join(table: &Table) -> [Call; Ticket::OPEN]
    requires { Joinable table.now.tickets table.now.parents table.now.keys table.now.nodes table.now.used }
    ensures { Joins table.now.tickets table.now.parents table.now.keys table.now.nodes table.now.used result }
{
    let spare = Call {
        ticket: Ticket(0),
        parent: Ticket(0),
        node: Node(0),
        active: false,
    };
    let mut calls = [spare; Ticket::OPEN];
    for i in 0..table.used {
        calls[i] = Call {
            ticket: Ticket(table.tickets[i]),
            parent: Ticket(table.parents[i]),
            node: Node(table.nodes[i]),
            active: table.keys[i] == 0,
        };
    }
    calls
}
