// The net rules, tested over a net as a run holds it. An inner crate: the library's own crates alone call it.
#![tactic(auto)]

ghost use Rattle.rules.specs.Rules.{TicketsTested, TicketsTest, NodesTested, NodesTest, ParentTested, ParentTest, ParentsTested, ParentsTest, SettledTested, SettledTest};

use ids::{Node, Site, Ticket};
use links::Rows;
use model::Plan;
use moves::Running;
use rooms::Rooms;
use table::Table;

// Open tickets differ, and none is 0: each is found first at its own place.
pub fn tickets_kept(table: &Table) -> bool
    requires { TicketsTested table.now.tickets table.now.used }
    ensures { TicketsTest table.now.tickets table.now.used result }
{
    for i in 0..table.used {
        let ticket = table.tickets[i];
        if ticket == Ticket::NONE {
            return false;
        }
        if table.find(ticket) != Some(i) {
            return false;
        }
    }
    true
}

// Every open call's node is in the plan.
pub fn nodes_known(table: &Table, plan: &Plan) -> bool
    requires { NodesTested table.now.nodes table.now.used plan.now.places }
    ensures { NodesTest table.now.nodes table.now.used plan.now.places result }
{
    table
        .nodes
        .iter()
        .take(table.used)
        .all(|node| record::has_node(&plan.places, Node(*node)))
}

// A parent is none, or is open and active, and the plan has the edge from its node.
fn parent_kept(table: &Table, edges: &Rows, parent: u16, node: u8) -> bool
    requires { ParentTested table.now.tickets table.now.keys table.now.nodes table.now.used edges.now.rows parent node }
    ensures { ParentTest table.now.tickets table.now.keys table.now.nodes table.now.used edges.now.rows parent node result }
{
    if parent == Ticket::NONE {
        return true;
    }
    let Some(at) = table.find(parent) else {
        return false;
    };
    if table.keys[at] != 0 {
        return false;
    }
    words::has(edges.rows[table.nodes[at] as usize], node)
}

// Every parent is open and active, with the edge in the plan.
pub fn parents_kept(table: &Table, edges: &Rows) -> bool
    requires { ParentsTested table.now.tickets table.now.parents table.now.keys table.now.nodes table.now.used edges.now.rows }
    ensures { ParentsTest table.now.tickets table.now.parents table.now.keys table.now.nodes table.now.used edges.now.rows result }
{
    for i in 0..table.used {
        if !parent_kept(table, edges, table.parents[i], table.nodes[i]) {
            return false;
        }
    }
    true
}

// No waiting call may be admitted: no site has a waiter below its limit.
pub fn settled(running: &Running, plan: &Plan) -> bool
    requires { SettledTested running.now.table.keys running.now.rooms.left running.now.table.used plan.now.threads }
    ensures { SettledTest running.now.table.keys running.now.rooms.left running.now.table.used plan.now.threads result }
{
    for site in 0..Site::COUNT {
        let most = plan.threads[site];
        // Nobody waits at a site without threads.
        if most == 0 {
            continue;
        }
        let base = Rooms::base(site as u8);
        let limit = running.rooms.limit(site as u8, most);
        let top = base + limit as usize;
        if running.table.waiter(base as u16, top as u16).is_some() {
            return false;
        }
    }
    true
}
