// Each command by itself, through the functions of `net` by value: a plan and then commands from standard input, no more than one buffer of it. It writes how
// many commands were answered and how many of them refused. What one command by value costs is counted on it (`tests/speed`).
#![tactic(auto)]

use decode::Request;
use ids::{Level, Node, Site, Ticket};
use value::Net;

// The bytes of input that are held.
const MOST: usize = 65536;

#[derive(Clone, Copy)]
struct Answered {
    commands: u64,
    refused: u64,
}

// The public function of a request: the net after it, and whether it was refused.
fn answer(net: Net, request: Request) -> (Net, bool) {
    let done = match request {
        Request::Start(node, ticket) => net::start(net, Ticket(ticket), Node(node)),
        Request::Call(node, parent, ticket) => {
            net::call(net, Ticket(parent), Ticket(ticket), Node(node))
        }
        Request::Return(ticket) => net::finish(net, Ticket(ticket)),
        Request::TakeBack(ticket) => net::take_back(net, Ticket(ticket)),
        Request::Ask(ticket) => return (net, net::ask(net, Ticket(ticket)).is_err()),
        Request::Room(site, level) => {
            return (net, net::room(net, Site(site), Level(level)).is_err());
        }
    };
    (done.net, done.answer.is_err())
}

// Command after command from a place on. Each takes a byte at least.
fn all(first: Net, bytes: &[u8], from: usize) -> Answered {
    let mut net = first;
    let mut at = from;
    let mut commands = 0;
    let mut refused = 0;
    for _ in 0..MOST {
        let Ok((request, behind)) = decode::next_request(bytes, at) else {
            return Answered { commands, refused };
        };
        let (after, refuses) = answer(net, request);
        net = after;
        at = behind;
        commands += 1;
        refused += refuses as u64;
    }
    Answered { commands, refused }
}

// A number on a line of its own.
fn print(rt: &HostRuntime, number: u64) {
    let _ = rt.println(number);
}

fn main(rt: HostRuntime) {
    let mut input = [0u8; MOST];
    let got = streams::read_full(&mut rt.stdin(), &mut input);
    let read = plan::read(&input[..got]);
    let Ok(used) = read.answer else {
        return;
    };
    let made = net::make(read.plan);
    let answered = all(made.net, &input[..got], used);
    print(&rt, answered.commands);
    print(&rt, answered.refused);
}
