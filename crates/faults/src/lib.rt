// What stands in a command's way, inside a run: the first test of its order that fails. An inner crate: the library's own crates alone call it.
#![tactic(auto)]

ghost use Rattle.std.specs.Prelude.{List};
ghost use Rattle.model.specs.Plan.{Record};
ghost use Rattle.model.specs.Net.{Call};
ghost use Rattle.faults.specs.Seen.{Ticketed, OpenAt, Free, StartSeen, StartFault, CallSeen, CallFault, ReturnSeen, ReturnFault, BackSeen, BackFault, fault_told, place_told};

use ids::{Node, Ticket};
use links::Rows;
use model::{Plan, Refusal};
use table::Table;

// The place of an open call. No ticket is not open.
pub fn open_place(table: &Table, ticket: u16) -> Option<usize>
    requires { (rs : List Record) × (cs : List Call) × Ticketed rs cs table.now.tickets table.now.used }
    ensures { (rs : List Record) (cs : List Call) → Ticketed rs cs table.now.tickets table.now.used → OpenAt cs ticket result }
{
    if ticket == Ticket::NONE {
        return None;
    }
    table.find(ticket)
}

// Whether a ticket is free for a new call, the first test of a start and of a call: 20, 21.
fn free(table: &Table, ticket: u16) -> Result<(), Refusal>
    requires { (rs : List Record) × (cs : List Call) × Ticketed rs cs table.now.tickets table.now.used }
    ensures { (rs : List Record) (cs : List Call) → Ticketed rs cs table.now.tickets table.now.used → Free rs cs ticket result }
{
    if ticket == Ticket::NONE {
        return Err(Refusal::NoTicket);
    }
    if table.find(ticket).is_some() {
        return Err(Refusal::TicketOpen);
    }
    Ok(())
}

// A start: 20, 21, 22, 26.
pub fn start_fault(table: &Table, plan: &Plan, ticket: u16, node: u8) -> Result<(), Refusal>
    requires { (rs : List Record) × (cs : List Call) × StartSeen rs cs table.now.tickets plan.now.places table.now.used }
    ensures { StartFault table.now.tickets plan.now.places table.now.used ticket node (fault_told result) }
{
    free(table, ticket)?;
    if !record::has_node(&plan.places, Node(node)) {
        return Err(Refusal::NoSuchNode);
    }
    if table.used == Ticket::OPEN {
        return Err(Refusal::TooManyOpen);
    }
    Ok(())
}

// A call: 20, 21, 23, 24, 22, 25, 26.
pub fn call_fault(
    table: &Table,
    plan: &Plan,
    edges: &Rows,
    parent: u16,
    ticket: u16,
    node: u8,
) -> Result<(), Refusal>
    requires { (rs : List Record) × (cs : List Call) × CallSeen rs cs table.now.tickets table.now.keys table.now.nodes plan.now.places edges.now.rows table.now.used }
    ensures { CallFault table.now.tickets table.now.keys table.now.nodes plan.now.places edges.now.rows table.now.used parent ticket node (fault_told result) }
{
    free(table, ticket)?;
    let Some(at) = open_place(table, parent) else {
        return Err(Refusal::ParentNotOpen);
    };
    if table.keys[at] != 0 {
        return Err(Refusal::ParentWaits);
    }
    if !record::has_node(&plan.places, Node(node)) {
        return Err(Refusal::NoSuchNode);
    }
    if !words::has(edges.rows[table.nodes[at] as usize], node) {
        return Err(Refusal::NoSuchEdge);
    }
    if table.used == Ticket::OPEN {
        return Err(Refusal::TooManyOpen);
    }
    Ok(())
}

// A return: 27, 28, 29; else the place of the call.
pub fn return_fault(table: &Table, ticket: u16) -> Result<usize, Refusal>
    requires { (rs : List Record) × (cs : List Call) × ReturnSeen rs cs table.now.tickets table.now.parents table.now.keys table.now.used }
    ensures { ReturnFault table.now.tickets table.now.parents table.now.keys table.now.used ticket (fault_told result) (place_told result) }
{
    let Some(at) = open_place(table, ticket) else {
        return Err(Refusal::NotOpen);
    };
    if table.keys[at] != 0 {
        return Err(Refusal::StillWaits);
    }
    if table.has_child(ticket) {
        return Err(Refusal::ChildOpen);
    }
    Ok(at)
}

// A taking back: 27, 34; else the place of the call.
pub fn back_fault(table: &Table, ticket: u16) -> Result<usize, Refusal>
    requires { (rs : List Record) × (cs : List Call) × BackSeen rs cs table.now.tickets table.now.keys table.now.used }
    ensures { BackFault table.now.tickets table.now.keys table.now.used ticket (fault_told result) (place_told result) }
{
    let Some(at) = open_place(table, ticket) else {
        return Err(Refusal::NotOpen);
    };
    if table.keys[at] == 0 {
        return Err(Refusal::NotWaiting);
    }
    Ok(at)
}
