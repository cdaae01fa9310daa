// What depends on what, for our engineer: "one byte for each ordered pair of nodes, so that our engineer can print it". The checks of a plan do not use it.
#![tactic(auto)]

ghost use Rattle.std.specs.Prelude.{◌<◌, ◌≡◌};
ghost use Rattle.ids.specs.Limits.{nodes};
ghost use Rattle.model.specs.Graph.{Depends};
ghost use Rattle.model.specs.Plan.{has_edge, site_steps};
ghost use Rattle.model.specs.PlanValue.{records_of};
ghost use Rattle.words.specs.Words.{member};
ghost use Rattle.cycles.specs.Within.{within_nodes};
ghost use Rattle.printable.specs.Tables.{TableTells};
ghost use Rattle.printable.specs.Filling.{Called, DependsOn, Rowed};

use ids::Node;
use links::Rows;
use model::Plan;

// A byte for each ordered pair of nodes: that of (n, m) at 64 n + m.
#[derive(Clone, Copy)]
pub struct Table {
    pub cells: [u8; Node::COUNT * Node::COUNT],
}

impl Table {
    // Writes the row of n: 1 for each node of the set, and else 0.
    fn put_row(&mut self, n: usize, set: u64)
        requires { n < nodes }
        ensures { Rowed self.old.cells self.new.cells n (member set) nodes }
    {
        for m in 0..Node::COUNT {
            self.cells[Node::COUNT * n + m] = words::has(set, m as u8) as u8;
        }
    }
}

// The nodes that some node of a set calls.
fn called(calls: &Rows, set: u64) -> u64
    ensures { Called calls.now.rows set result }
{
    let mut all = 0;
    let mut todo = set;
    // kept: the word is stepped through by its trailing zeros, as document 01 has it of such a row, and in the same words as in `graph`.
    while todo != 0 {
        all |= calls.rows[words::lowest(todo)];
        todo = words::without_lowest(todo);
    }
    all
}

// The nodes on which n depends: a path to a call edge, the edge, and a path on from it.
fn depended(calls: &Rows, paths: &Rows, n: usize) -> u64
    requires { n < nodes }
    ensures { DependsOn calls.now.rows paths.now.rows n result }
{
    let before = graph::reached(paths, words::with(0, n as u8));
    graph::reached(paths, called(calls, before))
}

// Which nodes depend on which.
pub fn dependence(plan: Plan) -> Table
    ensures { TableTells result.cells (Depends (within_nodes (has_edge (records_of plan))) (site_steps (records_of plan))) }
{
    let calls = links::call_rows(plan);
    let paths = cycles::path_rows(calls, plan);
    let mut table = Table {
        cells: [0; Node::COUNT * Node::COUNT],
    };
    for n in 0..Node::COUNT {
        table.put_row(n, depended(&calls, &paths, n));
    }
    table
}
