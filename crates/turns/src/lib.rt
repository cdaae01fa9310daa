// One turn of a run: a request answered, and its line written. An inner crate: the library's own crates alone call it.
#![tactic(auto)]

ghost use Rattle.std.specs.Prelude.{◌≡◌};
ghost use Rattle.text.specs.Put.{Puts};
ghost use Rattle.text.specs.Room.{line_room, HasRoom};
ghost use Rattle.text.specs.Lines.{shown_told};
ghost use Rattle.moves.specs.Held.{arrays_of};
ghost use Rattle.turns.specs.Turn.{request_line, Answerable, Answers, Turns};

use decode::Request;
use links::Rows;
use model::{Plan, Refusal};
use moves::Running;
use text::{Page, Printed};

// The line of a request and its answer.
fn print<'a>(page: &mut Page<'a>, request: Request, what: Result<Printed, Refusal>)
    requires { HasRoom page.old line_room }
    ensures same_reference { page.new.text.ghost_name ≡ page.old.text.ghost_name }
    ensures put { Puts page.old (request_line request (shown_told what)) page.new }
{
    match request {
        Request::Start(_, ticket) => page.line(b'S', ticket, None, what),
        Request::Call(_, parent, ticket) => page.line(b'C', parent, Some(ticket), what),
        Request::Return(ticket) => page.line(b'E', ticket, None, what),
        Request::Ask(ticket) => page.line(b'Q', ticket, None, what),
        Request::TakeBack(ticket) => page.line(b'X', ticket, None, what),
        Request::Room(site, level) => page.line(b'M', site as u16, Some(level as u16), what),
    }
}

// The answer, and the run left holding the net after it.
pub fn answer(
    running: &mut Running,
    plan: &Plan,
    edges: &Rows,
    request: Request,
) -> Result<Printed, Refusal>
    requires { Answerable (arrays_of running.old) running.old.table.used plan.now.threads plan.now.places plan.now.levels edges.now.rows }
    ensures { Answers (arrays_of running.old) (arrays_of running.new) running.old.table.used running.new.table.used (shown_told result) plan.now.threads plan.now.places plan.now.levels edges.now.rows request }
{
    match request {
        Request::Start(node, ticket) => steps::enter(running, plan, edges, None, ticket, node),
        Request::Call(node, parent, ticket) => {
            steps::enter(running, plan, edges, Some(parent), ticket, node)
        }
        Request::Return(ticket) => steps::leave(running, plan, ticket),
        Request::TakeBack(ticket) => steps::take_back(&mut running.table, ticket),
        Request::Ask(ticket) => Ok(steps::ask(&running.table, ticket)),
        Request::Room(site, level) => steps::room(&running.rooms, plan, site, level),
    }
}

// A turn, whose line has room.
pub fn turn<'a>(
    running: &mut Running,
    plan: &Plan,
    edges: &Rows,
    page: &mut Page<'a>,
    request: Request,
)
    requires net { Answerable (arrays_of running.old) running.old.table.used plan.now.threads plan.now.places plan.now.levels edges.now.rows }
    requires room { HasRoom page.old line_room }
    ensures same_reference { page.new.text.ghost_name ≡ page.old.text.ghost_name }
    ensures turned { Turns (arrays_of running.old) (arrays_of running.new) running.old.table.used running.new.table.used plan.now.threads plan.now.places plan.now.levels edges.now.rows request page.old page.new }
{
    let what = answer(running, plan, edges, request);
    print(page, request, what);
}
