// The call edges of a plan as words: for each node the set of those that it may call. A plan may be anybody's; of its edges those between nodes 0 to 63 count.
#![tactic(auto)]

ghost use Rattle.std.specs.Prelude.{◌≡◌, ◌&&◌, ◌||◌, eqb};
ghost use Rattle.model.specs.Plan.{has_edge};
ghost use Rattle.model.specs.PlanValue.{records_of};
ghost use Rattle.links.specs.Rows.{linked, RowsTell};

use ids::Node;
use model::{Edge, Plan};

// The set of each node.
#[derive(Clone, Copy)]
pub struct Rows {
    pub rows: [u64; Node::COUNT],
}

impl Rows {
    // Adds a pair, where both are nodes.
    fn link(&mut self, pair: Edge)
        ensures { RowsTell self.new.rows (λ n m. (eqb pair.caller.0 n && eqb pair.callee.0 m) || linked self.old.rows n m) }
    {
        let row = pair.caller.0 as usize;
        if Node::COUNT <= row {
            return;
        }
        self.rows[row] = words::with(self.rows[row], pair.callee.0);
    }
}

// The call edges. No more are looked at than have places.
pub fn call_rows(plan: Plan) -> Rows
    ensures { RowsTell result.rows (has_edge (records_of plan)) }
{
    let mut calls = Rows {
        rows: [0; Node::COUNT],
    };
    for i in 0..plan.edges.min(Node::EDGES) {
        calls.link(plan.pairs[i]);
    }
    calls
}
