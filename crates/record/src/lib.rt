// One record of a plan at a time: reading it from bytes, checking it against the records before it, storing it in the plan's value, and the checks
// of the end record. An inner crate: `plan` reads whole plans with it and `audit` checks plan values.
#![tactic(auto)]

ghost use Rattle.std.specs.Prelude.{◌≡◌, get_or};
ghost use Rattle.model.specs.Plan.{plan_kinds};
ghost use Rattle.model.specs.PlanValue.{empty_plan};
ghost use Rattle.record.specs.Step.{body_told, record_of, next_in, follows_last, told_check, listed_node, site_fault, node_fault, edge_fault, value_fault, stored_in};
ghost use Rattle.record.specs.Whole.{WholeFault};

use ids::{Level, Node, Site};
use model::{Edge, Plan, PlanRecord, PlanRefusal};

// A record of a plan file, and the offset behind it.
#[derive(Clone, Copy)]
pub struct Found {
    pub next: PlanRecord,
    pub behind: usize,
}

// The plan with no records.
#[tactic(auto, unfolding(model::specs::PlanValue::empty_plan))]
pub fn empty() -> Plan
    ensures { result ≡ empty_plan }
{
    let no_pair = Edge {
        caller: Node(0),
        callee: Node(0),
    };
    Plan {
        threads: [0; Site::COUNT],
        places: [Plan::NOWHERE; Node::COUNT],
        levels: [0; Node::COUNT],
        pairs: [no_pair; Node::EDGES],
        edges: 0,
    }
}

// The table of kinds: 1 site, 2 node, 3 edge, 4 end.
pub fn body_length(kind: u8) -> Option<usize>
    ensures { body_told result ≡ plan_kinds kind }
{
    match kind {
        1 => Some(2),
        2 => Some(3),
        3 => Some(2),
        4 => Some(0),
        _ => None,
    }
}

// The byte at a place, 0 past the end.
pub fn byte(bytes: &[u8], at: usize) -> u8
    ensures { result ≡ get_or bytes.now at 0 }
{
    bytes.get(at).copied().unwrap_or(0)
}

// The record of a known kind by the bytes of its body.
fn record_in(kind: u8, body: &[u8]) -> PlanRecord
    ensures { result ≡ record_of kind body.now }
{
    let first = byte(body, 0);
    let second = byte(body, 1);
    match kind {
        1 => PlanRecord::Site(Site(first), second),
        2 => PlanRecord::Node(Node(first), Site(second), Level(byte(body, 2))),
        3 => PlanRecord::Edge(Node(first), Node(second)),
        _ => PlanRecord::End,
    }
}

// The record at an offset; or else whether the input ends where its kind byte or a body byte is due, or its kind is unknown.
pub fn next_record(bytes: &[u8], at: usize) -> Result<Found, PlanRefusal>
    ensures { result ≡ next_in bytes.now at }
{
    let Some(&kind) = bytes.get(at) else {
        return Err(PlanRefusal::InputEnds);
    };
    let Some(size) = body_length(kind) else {
        return Err(PlanRefusal::UnknownKind);
    };
    let start = at + 1;
    let behind = start + size;
    let Some(body) = bytes.get(start..behind) else {
        return Err(PlanRefusal::InputEnds);
    };
    Ok(Found {
        next: record_in(kind, body),
        behind,
    })
}

// Whether a record may follow the last one; `End` stands for no record before.
fn follows(last: PlanRecord, next: PlanRecord) -> bool
    ensures { result ≡ follows_last last next }
{
    match (last, next) {
        (PlanRecord::End, _) | (_, PlanRecord::End) => true,
        (PlanRecord::Site(a, _), PlanRecord::Site(b, _)) => a < b,
        (PlanRecord::Node(a, _, _), PlanRecord::Node(b, _, _)) => a < b,
        // kept: with the tuples compared the records of the largest plan took 22043 instructions to read, and the old form took 20676; so they take 20388.
        (PlanRecord::Edge(a, b), PlanRecord::Edge(c, d)) => a < c || (a == c && b < d),
        (PlanRecord::Site(..), _) | (_, PlanRecord::Edge(..)) => true,
        _ => false,
    }
}

// Check 4 on a site record.
fn check_site(site: Site, threads: u8) -> Result<(), PlanRefusal>
    ensures { told_check result ≡ site_fault site.0 threads }
{
    if site.0 as usize >= Site::COUNT || threads == 0 || threads as usize > Site::THREADS {
        return Err(PlanRefusal::OutOfRange);
    }
    Ok(())
}

// Checks 4, 5 and 6 on a node record. A site without a record has 0 threads.
fn check_node(threads: &[u8], node: Node, site: Site, level: Level) -> Result<(), PlanRefusal>
    ensures { told_check result ≡ node_fault threads.now node.0 site.0 level.0 }
{
    if node.0 as usize >= Node::COUNT {
        return Err(PlanRefusal::OutOfRange);
    }
    let its_threads = byte(threads, site.0 as usize);
    let its_level = level.0;
    if its_threads == 0 {
        return Err(PlanRefusal::NotListed); // its site
    }
    if its_level >= its_threads {
        return Err(PlanRefusal::LevelTooHigh);
    }
    Ok(())
}

// Whether a node has a record.
pub fn has_node(places: &[u8], node: Node) -> bool
    ensures { result ≡ listed_node places.now node.0 }
{
    places
        .get(node.0 as usize)
        .copied()
        .unwrap_or(Plan::NOWHERE)
        != Plan::NOWHERE
}

// Checks 5 and 9 on an edge record.
fn check_edge(places: &[u8], edges: usize, caller: Node, callee: Node) -> Result<(), PlanRefusal>
    ensures { told_check result ≡ edge_fault places.now edges caller.0 callee.0 }
{
    if !has_node(places, caller) || !has_node(places, callee) {
        return Err(PlanRefusal::NotListed);
    }
    if edges >= Node::EDGES {
        return Err(PlanRefusal::TooManyEdges);
    }
    Ok(())
}

// The checks on one record, in order: 3, 4, 5, 6, 9. The sites and nodes so far are lent, of any length, and so many edges are there.
pub fn check<'a>(
    threads: &'a [u8],
    places: &'a [u8],
    edges: usize,
    last: PlanRecord,
    next: PlanRecord,
) -> Result<(), PlanRefusal>
    ensures { told_check result ≡ value_fault threads.now places.now edges last next }
{
    if !follows(last, next) {
        return Err(PlanRefusal::NotRising);
    }
    match next {
        PlanRecord::Site(site, count) => check_site(site, count),
        PlanRecord::Node(node, site, level) => check_node(threads, node, site, level),
        PlanRecord::Edge(caller, callee) => check_edge(places, edges, caller, callee),
        PlanRecord::End => Ok(()),
    }
}

// The same behind the records that a plan holds.
pub fn check_behind(plan: &Plan, last: PlanRecord, next: PlanRecord) -> Result<(), PlanRefusal>
    ensures { told_check result ≡ value_fault plan.now.threads plan.now.places plan.now.edges last next }
{
    check(&plan.threads, &plan.places, plan.edges, last, next)
}

// Stores one record more, in place. A record that has no place in the plan leaves it as it was.
pub fn store_in(plan: &mut Plan, next: PlanRecord)
    ensures { plan.new ≡ stored_in plan.old next }
{
    match next {
        PlanRecord::Site(site, threads) => {
            let at = site.0 as usize;
            if at < Site::COUNT {
                plan.threads[at] = threads;
            }
        }
        PlanRecord::Node(node, site, level) => {
            let at = node.0 as usize;
            if at < Node::COUNT {
                plan.places[at] = site.0;
                plan.levels[at] = level.0;
            }
        }
        PlanRecord::Edge(caller, callee) => {
            let at = plan.edges;
            if at < Node::EDGES {
                plan.pairs[at] = Edge { caller, callee };
                plan.edges = at + 1;
            }
        }
        PlanRecord::End => {}
    }
}

// The plan with one record more.
pub fn store(plan: Plan, next: PlanRecord) -> Plan
    ensures { result ≡ stored_in plan next }
{
    let mut more = plan;
    store_in(&mut more, next);
    more
}

// The checks of the end record: 7, then 8.
pub fn check_end(plan: Plan) -> Result<(), PlanRefusal>
    ensures { WholeFault plan (told_check result) }
{
    if cycles::loops(plan) {
        return Err(PlanRefusal::Loop);
    }
    if cycles::self_depends(plan) {
        return Err(PlanRefusal::SelfDependence);
    }
    Ok(())
}
