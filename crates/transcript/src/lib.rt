// A run of command bytes over a net by value: each whole command answered, and its line written as the transcript has it. The rules are tested once a run. A
// net that breaks a rule is handed back as it came.
#![tactic(auto)]

ghost use Rattle.std.specs.Prelude.{◌≡◌};
ghost use Rattle.transcript.specs.Ran.{halt_of, NetRuns};

use runs::Stop;
use value::Net;

// Why a run stopped.
// kept: a Result over the inner crate's `Stop` would have callers name a crate that is not theirs to use.
#[derive(Clone, Copy, PartialEq, Eq)]
pub enum Halt {
    // The text has less room than a line may take.
    Full,
    // The bytes end where a command is due.
    End,
    // Or inside one.
    Cut,
    // No command has this kind.
    Unknown,
    // The net breaks a rule, and nothing was read: refusal 19.
    Broken,
}

impl From<Stop> for Halt {
    ghost from_gives = { λ why halt. halt ≡ halt_of why };

    fn from(why: Stop) -> Halt {
        match why {
            Stop::Full => Halt::Full,
            Stop::End => Halt::End,
            Stop::Cut => Halt::Cut,
            Stop::Unknown => Halt::Unknown,
        }
    }
}

// The net behind a run, the places behind what was read and what was written, and how many commands were answered.
#[derive(Clone, Copy)]
pub struct NetRan {
    pub net: Net,
    pub at: usize,
    pub to: usize,
    pub commands: usize,
    pub why: Halt,
}

// A run: the rules tested once, and then every whole command from a place on answered and its line written, from the first byte of the text on.
pub fn run(net: Net, bytes: &[u8], from: usize, text: &mut [u8]) -> NetRan
    ensures { NetRuns net bytes.now from text.old text.new result }
{
    let edges = links::call_rows(net.plan);
    let mut running = entry::blank();
    let Ok(()) = entry::prepare(&net, &edges, &mut running) else {
        return NetRan {
            net,
            at: from,
            to: 0,
            commands: 0,
            why: Halt::Broken,
        };
    };
    let ran = runs::run(&mut running, &net.plan, &edges, bytes, from, text);
    NetRan {
        net: pack::packed(net.plan, &running.table),
        at: ran.at,
        to: ran.to,
        commands: ran.commands,
        why: Halt::from(ran.why),
    }
}
