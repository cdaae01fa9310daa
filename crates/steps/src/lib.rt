// The requests inside a run: what each answers, and the run left holding the net after it. An inner crate: the library's own crates alone call it.
#![tactic(auto)]

ghost use Rattle.std.specs.Prelude.{◌≡◌, cond, List, suc};
ghost use Rattle.lists.specs.Count.{last};
ghost use Rattle.rooms.specs.Rooms.{base_of, no_room, Ranged};
ghost use Rattle.model.specs.Plan.{Record};
ghost use Rattle.model.specs.Net.{Call, Core};
ghost use Rattle.model.specs.Command.{active, waiting};
ghost use Rattle.moves.specs.Held.{arrays_of};
ghost use Rattle.faults.specs.Seen.{CallSeen, fault_told};
ghost use Rattle.text.specs.Lines.{of_answer, accepted_told, shown_told};
ghost use Rattle.steps.specs.Running.{EntryFault, Enterable, Enters, Leavable, Leaves, Withdrawable, Withdraws, AskSeen, Asks, RoomSeen, RoomAsked};

use ids::{Site, Ticket};
use links::Rows;
use model::{Plan, Refusal};
use moves::Running;
use rooms::Rooms;
use table::Table;
use text::Printed;

// What stands in the way of a call, or of a start, which has no parent.
fn entry_fault(
    table: &Table,
    plan: &Plan,
    edges: &Rows,
    parent: Option<u16>,
    ticket: u16,
    node: u8,
) -> Result<(), Refusal>
    requires { (rs : List Record) × (cs : List Call) × CallSeen rs cs table.now.tickets table.now.keys table.now.nodes plan.now.places edges.now.rows table.now.used }
    ensures { EntryFault table.now.tickets table.now.keys table.now.nodes plan.now.places edges.now.rows table.now.used parent ticket node (fault_told result) }
{
    match parent {
        Some(caller) => faults::call_fault(table, plan, edges, caller, ticket, node),
        None => faults::start_fault(table, plan, ticket, node),
    }
}

// A newcomer is active, or waits for a level to have room.
fn entered(rooms: &Rooms, site: u8, level: u8, admitted: bool) -> Printed
    requires { Ranged rooms.now.left (base_of site) level }
    ensures { accepted_told result ≡ of_answer (cond admitted active (waiting (last (suc level) (no_room rooms.now.left (base_of site))))) }
{
    if admitted {
        return Printed::Active;
    }
    Printed::Waits(rooms.blocking(site, level))
}

// A call, or a start, which has no parent.
// kept: a struct of the plan and the rows of its edges would hold two references, for what two parameters say; the plan is the net's own, and the rows are made from it.
pub fn enter(
    running: &mut Running,
    plan: &Plan,
    edges: &Rows,
    parent: Option<u16>,
    ticket: u16,
    node: u8,
) -> Result<Printed, Refusal>
    requires { Enterable (arrays_of running.old) running.old.table.used plan.now.threads plan.now.places plan.now.levels edges.now.rows }
    ensures { Enters (arrays_of running.old) (arrays_of running.new) running.old.table.used running.new.table.used (shown_told result) plan.now.threads plan.now.places plan.now.levels edges.now.rows parent ticket node }
{
    entry_fault(&running.table, plan, edges, parent, ticket, node)?;
    let site = plan.places[node as usize];
    let level = plan.levels[node as usize];
    let threads = plan.threads[site as usize];
    // kept: the table's words are the net's, where the ticket 0 is no parent.
    let caller = parent.unwrap_or(Ticket::NONE);
    let active = running.open(caller, ticket, node, site, level, threads);
    Ok(entered(&running.rooms, site, level, active))
}

// A return, and the oldest waiter that may be admitted at its site, or none.
pub fn leave(running: &mut Running, plan: &Plan, ticket: u16) -> Result<Printed, Refusal>
    requires { Leavable (arrays_of running.old) running.old.table.used plan.now.threads plan.now.places plan.now.levels }
    ensures { Leaves (arrays_of running.old) (arrays_of running.new) running.old.table.used running.new.table.used (shown_told result) plan.now.threads plan.now.places plan.now.levels ticket }
{
    let at = faults::return_fault(&running.table, ticket)?;
    let node = running.table.nodes[at] as usize;
    let site = plan.places[node];
    let level = plan.levels[node];
    let threads = plan.threads[site as usize];
    let limit = running.rooms.limit(site, threads);
    running.close(at, site, level);
    // The lowest full level is above this one and stays full, so that nobody may go.
    if level < limit {
        return Ok(Printed::Number(Ticket::NONE));
    }
    let admitted = running.serve(site, threads);
    // kept: "A return prints the ticket admitted or 0".
    Ok(Printed::Number(admitted.unwrap_or(Ticket::NONE)))
}

// A taking back: a call that waits leaves, and nobody is admitted. It looks at no room and nothing of the plan.
pub fn take_back(table: &mut Table, ticket: u16) -> Result<Printed, Refusal>
    requires { Withdrawable table.old.tickets table.old.parents table.old.keys table.old.nodes table.old.used }
    ensures { Withdraws table.old.tickets table.old.parents table.old.keys table.old.nodes table.new.tickets table.new.parents table.new.keys table.new.nodes table.old.used table.new.used (shown_told result) ticket }
{
    let at = faults::back_fault(table, ticket)?;
    table.remove(at);
    Ok(Printed::Number(Ticket::NONE))
}

// Whether a ticket's call is active, waits or is not open.
pub fn ask(table: &Table, ticket: u16) -> Printed
    requires { (net : Core) × AskSeen net table.now.tickets table.now.keys table.now.used }
    ensures { Asks table.now.tickets table.now.keys table.now.used ticket (accepted_told result) }
{
    let Some(at) = faults::open_place(table, ticket) else {
        return Printed::Absent;
    };
    if table.keys[at] != 0 {
        return Printed::Waiting;
    }
    Printed::Running
}

// The room of a level: how many calls of it could go in one after another; or 30.
pub fn room(rooms: &Rooms, plan: &Plan, site: u8, level: u8) -> Result<Printed, Refusal>
    requires { (net : Core) × RoomSeen net rooms.now.left plan.now.threads }
    ensures { RoomAsked rooms.now.left plan.now.threads site level (shown_told result) }
{
    if site as usize >= Site::COUNT {
        return Err(Refusal::NoSuchRoom);
    }
    if level >= plan.threads[site as usize] {
        return Err(Refusal::NoSuchRoom);
    }
    Ok(Printed::Number(rooms.smallest(site, level) as u16))
}
