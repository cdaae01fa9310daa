// Relations on nodes as a word for each node, that of the nodes to which it leads: what is reached from some nodes, and whether an edge is closed backwards.
#![tactic(auto)]

ghost use Rattle.std.specs.Prelude.{◌≡◌, true, ◌↔◌};
ghost use Rattle.graph.specs.Reached.{ReachedFrom, ClosedBack};

use ids::Node;
use links::Rows;

// The nodes of a set and all that paths lead to from them. What is reached and has not been looked at is a word too, from which the next node comes by
// its trailing zeros.
pub fn reached(paths: &Rows, from: u64) -> u64
    ensures { ReachedFrom paths.now.rows from result }
{
    let mut found = from;
    let mut todo = from;
    // kept: the set grows while it is stepped through by its trailing zeros, as document 01 has it.
    while todo != 0 {
        let row = paths.rows[words::lowest(todo)];
        let fresh = words::minus(row, found);
        found |= fresh;
        todo = words::without_lowest(todo) | fresh;
    }
    found
}

// Whether a path leads from the end of an edge back to its start.
pub fn circular(edges: &Rows, paths: &Rows) -> bool
    ensures { (result ≡ true) ↔ ClosedBack edges.now.rows paths.now.rows }
{
    let rows = &edges.rows;
    (0..Node::COUNT).any(|n| words::has(reached(paths, rows[n]), n as u8))
}
