// The net by value: anybody's net may be handed in, and every function answers. A net that breaks a rule is refused with 19 before all else and handed back as it
// came, and so is the net of a refused command.
#![tactic(auto)]

ghost use Rattle.std.specs.Prelude.{◌≡◌, []};
ghost use Rattle.model.specs.Command.{start, call, return, take_back};
ghost use Rattle.value.specs.View.{broken, rule_told};
ghost use Rattle.value.specs.Handed.{value_of, command_answered, ask_answered, room_answered, make_answered};
ghost use Rattle.net.specs.Public.{CommandAsked, CommandTold, RoomTold};

use decode::Request;
use ids::{Level, Node, Site, Ticket};
use model::{Plan, Refusal};
use table::Table;
use text::Printed;
use value::{Commanded, MadeNet, Net, NetRule, Standing};

// The net of a plan with no open call.
fn empty(plan: Plan) -> Net
    ensures { result ≡ value_of plan [] }
{
    Net {
        plan,
        calls: apart::join(&Table::empty()),
        used: 0,
        counts: [0; Site::COUNT * Site::THREADS],
    }
}

// A net without calls, from a plan that passes all its checks; else 18, and the empty net of the empty plan.
pub fn make(plan: Plan) -> MadeNet
    ensures { result ≡ make_answered plan }
{
    let audited = audit::check(plan);
    MadeNet {
        answer: audited.checked.map_err(|_| Refusal::BrokenPlan),
        net: empty(audited.plan),
    }
}

// The first net rule that is broken.
pub fn check(net: Net) -> Result<(), NetRule>
    ensures { rule_told result ≡ broken net }
{
    let edges = links::call_rows(net.plan);
    let mut running = entry::blank();
    entry::prepare(&net, &edges, &mut running)
}

// A start, a call, a return or a taking back, by its request.
fn command(net: Net, request: Request) -> Commanded
    requires { CommandAsked request }
    ensures { CommandTold net request result }
{
    let edges = links::call_rows(net.plan);
    let mut running = entry::blank();
    if let Err(rule) = entry::prepare(&net, &edges, &mut running) {
        return Commanded {
            answer: Err(Refusal::from(rule)),
            net,
        };
    }
    let done = turns::answer(&mut running, &net.plan, &edges, request);
    pack::handed(net, done, &running.table)
}

// A start: 20, 21, 22, 26.
pub fn start(net: Net, ticket: Ticket, node: Node) -> Commanded
    ensures { result ≡ command_answered net (start ticket.0 node.0) }
{
    command(net, Request::Start(node.0, ticket.0))
}

// A call: 20, 21, 23, 24, 22, 25, 26.
pub fn call(net: Net, parent: Ticket, ticket: Ticket, node: Node) -> Commanded
    ensures { result ≡ command_answered net (call parent.0 ticket.0 node.0) }
{
    command(net, Request::Call(node.0, parent.0, ticket.0))
}

// A return: 27, 28, 29. (`return` is a word of the language.)
pub fn finish(net: Net, ticket: Ticket) -> Commanded
    ensures { result ≡ command_answered net (return ticket.0) }
{
    command(net, Request::Return(ticket.0))
}

// A taking back of a call that still waits: 27, 34.
pub fn take_back(net: Net, ticket: Ticket) -> Commanded
    ensures { result ≡ command_answered net (take_back ticket.0) }
{
    command(net, Request::TakeBack(ticket.0))
}

// Whether a ticket's call is active, waits or is not open.
pub fn ask(net: Net, ticket: Ticket) -> Result<Standing, Refusal>
    ensures { result ≡ ask_answered net ticket.0 }
{
    check(net)?;
    let Some(at) = lookup::place(net, ticket) else {
        return Ok(Standing::NotOpen);
    };
    if net.calls[at].active {
        return Ok(Standing::Active);
    }
    Ok(Standing::Waiting)
}

// A room, by what is said of it.
fn room_of(said: Printed) -> u16
    ensures { RoomTold said result }
{
    match said {
        Printed::Number(room) => room,
        // No room is said so.
        Printed::Active | Printed::Waits(_) => 0,
        Printed::Running | Printed::Waiting | Printed::Absent => 0,
    }
}

// The room at a level of a site, or 30.
pub fn room(net: Net, site: Site, level: Level) -> Result<u16, Refusal>
    ensures { result ≡ room_answered net site.0 level.0 }
{
    let edges = links::call_rows(net.plan);
    let mut running = entry::blank();
    entry::prepare(&net, &edges, &mut running)?;
    let said = steps::room(&running.rooms, &net.plan, site.0, level.0)?;
    Ok(room_of(said))
}
