// Writing a plan: its records and the end record go into a lent buffer, and the reader reads them back as this plan. The plan may be anybody's; nothing is
// written before it has passed its checks and the buffer is long enough.
#![tactic(auto)]

ghost use Rattle.std.specs.Prelude.{◌≤◌, ◌≡◌, eqb, length};
ghost use Rattle.ids.specs.Limits.{sites, nodes, most_edges};
ghost use Rattle.model.specs.PlanFault.{plan_fault};
ghost use Rattle.model.specs.Writing.{plan_file};
ghost use Rattle.text.specs.Put.{Puts};
ghost use Rattle.text.specs.Room.{HasRoom};
ghost use Rattle.writing.specs.Writes.{Writes, write_refusal, record_bytes, sites_bytes, nodes_bytes, edges_bytes};
ghost use Rattle.writing.specs.declared.WriteRefusal.{WriteRefusal};

use ids::{Level, Node, Site};
use model::{Plan, PlanRecord};
use text::Page;

// Why nothing was written.
#[derive(Clone, Copy, PartialEq, Eq)]
pub enum WriteRefusal {
    // No net is made from this plan either.
    BrokenPlan,
    // The buffer is shorter than the file.
    ShortBuffer,
}

impl From<WriteRefusal> for u8 {
    ghost from_gives = { λ why number. number ≡ write_refusal why };

    fn from(why: WriteRefusal) -> u8 {
        match why {
            WriteRefusal::BrokenPlan => 18,
            WriteRefusal::ShortBuffer => 10,
        }
    }
}

// The kinds of records.
const SITE: u8 = 1;

const NODE: u8 = 2;

const EDGE: u8 = 3;

const END: u8 = 4;

// Whether a plan has none of the faults that the checks 3 to 9 name. The arrays are looked at where they are: `audit::check` finds the same faults, but
// makes the plan anew, record by record, of which a file needs nothing.
fn sound(plan: Plan) -> bool
    ensures { result ≡ eqb (plan_fault plan) 0 }
{
    if !audit::passes(plan) {
        return false;
    }
    record::check_end(plan).is_ok()
}

// The length of a plan's file: 3 bytes for each site and edge, 4 for each node, and the end record.
fn file_length(plan: Plan) -> usize
    requires { plan.edges ≤ most_edges }
    ensures { result ≡ length (plan_file plan) }
{
    let sites = shown::site_count(plan);
    let nodes = shown::node_count(plan);
    3 * sites + 4 * nodes + 3 * plan.edges + 1
}

// A record's bytes.
fn put_record<'a>(page: &mut Page<'a>, next: PlanRecord)
    requires { HasRoom page.old (length (record_bytes next)) }
    ensures same_reference { page.new.text.ghost_name ≡ page.old.text.ghost_name }
    ensures put { Puts page.old (record_bytes next) page.new }
{
    match next {
        PlanRecord::Site(site, threads) => page.puts(&[SITE, site.0, threads]),
        PlanRecord::Node(node, site, level) => page.puts(&[NODE, node.0, site.0, level.0]),
        PlanRecord::Edge(caller, callee) => page.puts(&[EDGE, caller.0, callee.0]),
        PlanRecord::End => page.puts(&[END]),
    }
}

// The site records.
fn put_sites<'a>(page: &mut Page<'a>, plan: &Plan)
    requires { HasRoom page.old (length (sites_bytes plan.now sites)) }
    ensures same_reference { page.new.text.ghost_name ≡ page.old.text.ghost_name }
    ensures put { Puts page.old (sites_bytes plan.now sites) page.new }
{
    for s in 0..Site::COUNT {
        let threads = plan.threads[s];
        if threads != 0 {
            put_record(page, PlanRecord::Site(Site(s as u8), threads));
        }
    }
}

// The node records.
fn put_nodes<'a>(page: &mut Page<'a>, plan: &Plan)
    requires { HasRoom page.old (length (nodes_bytes plan.now nodes)) }
    ensures same_reference { page.new.text.ghost_name ≡ page.old.text.ghost_name }
    ensures put { Puts page.old (nodes_bytes plan.now nodes) page.new }
{
    for n in 0..Node::COUNT {
        let place = plan.places[n];
        if place != Plan::NOWHERE {
            let level = Level(plan.levels[n]);
            put_record(page, PlanRecord::Node(Node(n as u8), Site(place), level));
        }
    }
}

// The edge records.
fn put_edges<'a>(page: &mut Page<'a>, plan: &Plan)
    requires few { plan.now.edges ≤ most_edges }
    requires room { HasRoom page.old (length (edges_bytes plan.now plan.now.edges)) }
    ensures same_reference { page.new.text.ghost_name ≡ page.old.text.ghost_name }
    ensures put { Puts page.old (edges_bytes plan.now plan.now.edges) page.new }
{
    for i in 0..plan.edges {
        let pair = plan.pairs[i];
        put_record(page, PlanRecord::Edge(pair.caller, pair.callee));
    }
}

// The whole file.
fn put_file<'a>(page: &mut Page<'a>, plan: &Plan)
    requires few { plan.now.edges ≤ most_edges }
    requires room { HasRoom page.old (length (plan_file plan.now)) }
    ensures same_reference { page.new.text.ghost_name ≡ page.old.text.ghost_name }
    ensures put { Puts page.old (plan_file plan.now) page.new }
{
    put_sites(page, plan);
    put_nodes(page, plan);
    put_edges(page, plan);
    put_record(page, PlanRecord::End);
}

// Writes a plan's file into the front of a buffer and answers its length. What stands behind it stays, and a refusal leaves the whole buffer as it was.
pub fn write(plan: Plan, buffer: &mut [u8]) -> Result<usize, WriteRefusal>
    ensures { Writes plan buffer.old result buffer.new }
{
    if !sound(plan) {
        return Err(WriteRefusal::BrokenPlan);
    }
    if buffer.len() < file_length(plan) {
        return Err(WriteRefusal::ShortBuffer);
    }
    let mut page = Page {
        text: buffer,
        at: 0,
    };
    put_file(&mut page, &plan);
    Ok(page.at)
}
