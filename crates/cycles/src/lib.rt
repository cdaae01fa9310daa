// What a plan's call edges and its steps within a site make: the rows of its paths, loops and self-dependences. A plan may be anybody's; of its edges those
// between nodes 0 to 63 count.
#![tactic(auto)]

ghost use Rattle.std.specs.Prelude.{◌≡◌, true, ◌↔◌, ℕ, ◌<◌};
ghost use Rattle.ids.specs.Limits.{nodes};
ghost use Rattle.model.specs.Graph.{Depends, either};
ghost use Rattle.model.specs.Plan.{has_edge, site_steps, no_steps};
ghost use Rattle.model.specs.PlanValue.{records_of};
ghost use Rattle.links.specs.Rows.{linked, RowsTell};
ghost use Rattle.cycles.specs.Within.{within_nodes, steps_in, WithSteps};

use ids::Node;
use links::Rows;
use model::Plan;

// What a step within a site looks at: the sites of the nodes and their levels. They are copied by themselves, since the small console has little stack: with the
// plan lent to the steps, reading and checking one took 384 bytes more.
#[derive(Clone, Copy)]
struct Sited {
    places: [u8; Node::COUNT],
    levels: [u8; Node::COUNT],
}

// Whether a path may step from n to m: they stand at one site, and m's level is no higher.
#[tactic(auto, unfolding(crate::specs::Within::steps_in))]
fn steps_down(sited: &Sited, n: usize, m: usize) -> bool
    requires from_node { n < nodes }
    requires to_node { m < nodes }
    ensures { result ≡ steps_in sited.now.places sited.now.levels n m }
{
    let at = sited.places[n];
    at != Plan::NOWHERE && sited.places[m] == at && sited.levels[m] <= sited.levels[n]
}

// A set with the nodes more to which a path may step from n.
fn with_steps(set: u64, sited: &Sited, n: usize) -> u64
    requires { n < nodes }
    ensures { WithSteps set result (steps_in sited.now.places sited.now.levels n) }
{
    let mut row = set;
    for m in 0..Node::COUNT {
        if steps_down(sited, n, m) {
            row = words::with(row, m as u8);
        }
    }
    row
}

// Those of some rows and the steps within a site.
pub fn path_rows(calls: Rows, plan: Plan) -> Rows
    ensures { RowsTell result.rows (either (linked calls.rows) (site_steps (records_of plan))) }
{
    let places = plan.places;
    let levels = plan.levels;
    let sited = Sited { places, levels };
    let mut paths = calls;
    for (n, row) in paths.rows.iter_mut().enumerate() {
        *row = with_steps(*row, &sited, n);
    }
    paths
}

// Whether the call edges have a loop.
pub fn loops(plan: Plan) -> bool
    ensures { (result ≡ true) ↔ ((n : ℕ) × Depends (within_nodes (has_edge (records_of plan))) no_steps n n) }
{
    let calls = links::call_rows(plan);
    graph::circular(&calls, &calls)
}

// Whether some node depends on itself.
pub fn self_depends(plan: Plan) -> bool
    ensures { (result ≡ true) ↔ ((n : ℕ) × Depends (within_nodes (has_edge (records_of plan))) (site_steps (records_of plan)) n n) }
{
    let calls = links::call_rows(plan);
    // The copy that is kept is made first, and the rows are handed on as they are: the other way round takes 128 bytes of stack more.
    let edges = calls;
    let paths = path_rows(calls, plan);
    graph::circular(&edges, &paths)
}
