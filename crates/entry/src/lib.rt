// A net that is handed in, on its way into a run: its rules are tested one after the other, and a run holds it where it keeps them all. An inner
// crate: the library's own crates alone call it.
#![tactic(auto)]

ghost use Rattle.model.specs.PlanValue.{records_of};
ghost use Rattle.faults.specs.Seen.{Edging};
ghost use Rattle.entry.specs.Entry.{RecordRule, PlanRules, NumberTested, NumberRules, CallTested, CallRules, SiteTested, SiteRules, Blank, Prepares};

use ids::{Node, Ticket};
use links::Rows;
use model::Plan;
use moves::Running;
use rooms::Rooms;
use table::Table;
use value::{Net, NetRule};

// Each of these answers the first rule that is broken, of those that it tests.

// The rule on the plan's records.
fn record_rule(plan: Plan) -> Result<(), NetRule>
    ensures { RecordRule plan result }
{
    if !audit::passes(plan) {
        return Err(NetRule::Plan);
    }
    Ok(())
}

// The rules on the counts of the value and on the plan.
fn plan_rules(net: &Net) -> Result<(), NetRule>
    ensures { PlanRules net.now result }
{
    if net.plan.edges > Node::EDGES {
        return Err(NetRule::Plan);
    }
    if net.used > Ticket::OPEN {
        return Err(NetRule::TooManyOpen);
    }
    record_rule(net.plan)
}

// The rules on the tickets and the nodes of the calls.
fn number_rules(net: &Net, table: &Table) -> Result<(), NetRule>
    requires { NumberTested net.now table.now }
    ensures { NumberRules net.now result }
{
    if !rules::tickets_kept(table) {
        return Err(NetRule::Tickets);
    }
    if !rules::nodes_known(table, &net.plan) {
        return Err(NetRule::Nodes);
    }
    Ok(())
}

// The rules on the parents and on the counts of the active calls.
fn call_rules(net: &Net, table: &Table, edges: &Rows) -> Result<(), NetRule>
    requires { CallTested net.now table.now edges.now.rows }
    ensures { CallRules net.now result }
{
    if !rules::parents_kept(table, edges) {
        return Err(NetRule::Parents);
    }
    if !tally::kept(&net.counts, table, &net.plan) {
        return Err(NetRule::Counts);
    }
    Ok(())
}

// The rules on the sites and on the waiting calls; the rooms are filled in.
fn site_rules(net: &Net, running: &mut Running) -> Result<(), NetRule>
    requires { SiteTested net.now running.old }
    ensures { SiteRules net.now running.old running.new result }
{
    let Some(()) = tally::fill_rooms(&net.counts, &net.plan, &mut running.rooms) else {
        return Err(NetRule::Sites);
    };
    if !rules::settled(running, &net.plan) {
        return Err(NetRule::Waiting);
    }
    Ok(())
}

// A run that holds no net yet.
pub fn blank() -> Running
    ensures { Blank result }
{
    Running {
        table: Table::empty(),
        rooms: Rooms::without_limit(),
    }
}

// All rules; where none is broken the run, which holds no net yet, holds this one. The edges are its plan's.
// kept: the run is lent to be filled, and so are its table and its rooms. Answered by value within the Result, a single command on the small load took 26,042
// instructions where it took 14,735 before, and takes 16,791 so.
pub fn prepare(net: &Net, edges: &Rows, running: &mut Running) -> Result<(), NetRule>
    requires edged { Edging (records_of net.now.plan) edges.now.rows }
    requires blank { Blank running.old }
    ensures { Prepares net.now edges.now.rows running.new result }
{
    plan_rules(net)?;
    apart::numbers(net, &mut running.table);
    number_rules(net, &running.table)?;
    apart::keys(net, &mut running.table);
    call_rules(net, &running.table, edges)?;
    site_rules(net, running)
}
