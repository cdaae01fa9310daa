// The checks on a plan's value, which may be anybody's: its records are taken up one after the other in the file's order, each by the step that
// reads a file's record, and then the whole plan is checked. What passes is handed on in its one form, from which a net is made.
#![tactic(auto)]

ghost use Rattle.std.specs.Prelude.{◌≡◌, ◌<◌, ◌≤◌, IsOk};
ghost use Rattle.ids.specs.Limits.{sites, nodes, most_edges};
ghost use Rattle.model.specs.PlanValue.{records_of};
ghost use Rattle.record.specs.Step.{told_check, value_fault, stored_in};
ghost use Rattle.audit.specs.Taken.{Taken, sites_to, nodes_to};
ghost use Rattle.audit.specs.Audits.{Audits, Kept, records_pass};
ghost use Rattle.audit.specs.Fits.{node_fits, pair_fits, edge_fits, sites_fit, nodes_fit, edges_fit};

use ids::{Level, Node, Site};
use model::{Plan, PlanRecord, PlanRefusal};

// The first fault of a plan, or that it has none, and the plan as it may be kept: in its one form, or the empty plan beside a fault.
// kept: a Result of the plan would leave each caller to make the empty plan, which is promised beside a fault.
#[derive(Clone, Copy)]
pub struct Audited {
    pub checked: Result<(), PlanRefusal>,
    pub plan: Plan,
}

// Some records that were taken up and have no fault: the plan of these records, and the last one.
#[derive(Clone, Copy)]
struct Audit {
    plan: Plan,
    last: PlanRecord,
}

impl Audit {
    // Takes up one record more, where it has no fault.
    fn take(&mut self, next: PlanRecord) -> Result<(), PlanRefusal>
        ensures fault { told_check result ≡ value_fault self.old.plan.threads self.old.plan.places self.old.plan.edges self.old.last next }
        ensures taken { IsOk result → (self.new.plan ≡ stored_in self.old.plan next) × (self.new.last ≡ next) }
    {
        record::check_behind(&self.plan, self.last, next)?;
        record::store_in(&mut self.plan, next);
        self.last = next;
        Ok(())
    }
}

// The site records.
fn take_sites(plan: &Plan) -> Result<Audit, PlanRefusal>
    ensures { Taken (sites_to plan.now sites) result }
{
    let mut audit = Audit {
        plan: record::empty(),
        last: PlanRecord::End,
    };
    for s in 0..Site::COUNT {
        let threads = plan.threads[s];
        if threads != 0 {
            audit.take(PlanRecord::Site(Site(s as u8), threads))?;
        }
    }
    Ok(audit)
}

// The site records and the node records.
fn take_nodes(plan: &Plan) -> Result<Audit, PlanRefusal>
    ensures { Taken (nodes_to plan.now nodes) result }
{
    let mut audit = take_sites(plan)?;
    for n in 0..Node::COUNT {
        let place = plan.places[n];
        if place != Plan::NOWHERE {
            let level = Level(plan.levels[n]);
            audit.take(PlanRecord::Node(Node(n as u8), Site(place), level))?;
        }
    }
    Ok(audit)
}

// All records of a plan whose edges have places.
fn take_records(plan: &Plan) -> Result<Audit, PlanRefusal>
    requires { plan.now.edges ≤ most_edges }
    ensures { Taken (records_of plan.now) result }
{
    let mut audit = take_nodes(plan)?;
    for i in 0..plan.edges {
        let pair = plan.pairs[i];
        audit.take(PlanRecord::Edge(pair.caller, pair.callee))?;
    }
    Ok(audit)
}

// Whether each site has at most 64 threads; 0 is no site.
fn sites_pass(plan: &Plan) -> bool
    ensures { result ≡ sites_fit plan.now.threads }
{
    (0..Site::COUNT).all(|s| plan.threads[s] as usize <= Site::THREADS)
}

// Whether a node has no record, or its level is below its site's threads; a site without a record has none.
#[tactic(auto, unfolding(crate::specs::Fits::node_fits))]
fn node_fits(plan: &Plan, n: usize) -> bool
    requires { n < nodes }
    ensures { result ≡ node_fits plan.now.threads plan.now.places plan.now.levels n }
{
    let place = plan.places[n];
    place == Plan::NOWHERE || plan.levels[n] < record::byte(&plan.threads, place as usize)
}

// The same of all nodes.
fn nodes_pass(plan: &Plan) -> bool
    ensures { result ≡ nodes_fit plan.now.threads plan.now.places plan.now.levels }
{
    (0..Node::COUNT).all(|n| node_fits(plan, n))
}

// Whether the pair at a place rises from the one before it.
fn pair_fits(plan: &Plan, i: usize) -> bool
    requires { i < most_edges }
    ensures { result ≡ pair_fits plan.now.pairs i }
{
    i == 0 || plan.pairs[i - 1] < plan.pairs[i]
}

// Whether an edge is between nodes that have records, and its pair rises.
#[tactic(auto, unfolding(crate::specs::Fits::edge_fits))]
fn edge_fits(plan: &Plan, i: usize) -> bool
    requires { i < most_edges }
    ensures { result ≡ edge_fits plan.now.places plan.now.pairs i }
{
    record::has_node(&plan.places, plan.pairs[i].caller)
        && record::has_node(&plan.places, plan.pairs[i].callee)
        && pair_fits(plan, i)
}

// The same of all edges.
fn edges_pass(plan: &Plan) -> bool
    requires { plan.now.edges ≤ most_edges }
    ensures { result ≡ edges_fit plan.now.places plan.now.pairs plan.now.edges }
{
    for i in 0..plan.edges {
        if !edge_fits(plan, i) {
            return false;
        }
    }
    true
}

// Whether a plan's count of edges has places and its records pass the checks on single records: what a net asks of its plan. The arrays are looked at
// where they are, since every command asks it.
pub fn passes(plan: Plan) -> bool
    ensures { result ≡ records_pass plan }
{
    if Node::EDGES < plan.edges {
        return false;
    }
    sites_pass(&plan) && nodes_pass(&plan) && edges_pass(&plan)
}

// A plan in its one form, or its first fault.
fn kept(plan: &Plan) -> Result<Plan, PlanRefusal>
    ensures { Kept plan.now result }
{
    if plan.edges > Node::EDGES {
        return Err(PlanRefusal::TooManyEdges);
    }
    let held = take_records(plan)?.plan;
    record::check_end(held)?;
    Ok(held)
}

// The first fault of a plan, of those that the checks 3 to 9 name. What stands where no record is, levels of unlisted nodes and pairs behind the
// count, is no fault, and it does not travel on.
pub fn check(plan: Plan) -> Audited
    ensures { Audits plan result }
{
    match kept(&plan) {
        Ok(held) => Audited {
            checked: Ok(()),
            plan: held,
        },
        Err(why) => Audited {
            checked: Err(why),
            plan: record::empty(),
        },
    }
}
