// The net that is handed back, put together from the table of a run. An inner crate: the library's own crates alone call it.
#![tactic(auto)]

ghost use Rattle.pack.specs.Packed.{Packable, Packs, AnswerTold, Handable, Hands};

use ids::{Level, Site, Ticket};
use model::{Plan, Refusal};
use table::Table;
use text::Printed;
use value::{CommandAnswer, Commanded, Net};

// The one value of the calls that a table holds, over a plan. No site of theirs has more active calls than a byte counts.
pub fn packed(plan: Plan, table: &Table) -> Net
    requires { Packable plan table.now }
    ensures { Packs plan table.now result }
{
    let counts = tally::count(table, &plan).unwrap_or_else(|| [0; Site::COUNT * Site::THREADS]);
    let calls = apart::join(table);
    let used = table.used;
    Net {
        plan,
        calls,
        used,
        counts,
    }
}

// A command's answer, by what is said of it.
fn answer_of(said: Printed) -> CommandAnswer
    ensures { AnswerTold said result }
{
    match said {
        Printed::Number(ticket) => CommandAnswer::Ended(Ticket(ticket)),
        Printed::Waits(level) => CommandAnswer::Waiting(Level(level)),
        Printed::Active => CommandAnswer::Active,
        // Questions alone are answered so.
        Printed::Running | Printed::Waiting | Printed::Absent => CommandAnswer::Active,
    }
}

// What a command hands back: the net that came in where it was refused, and else that of the table.
pub fn handed(net: Net, done: Result<Printed, Refusal>, table: &Table) -> Commanded
    requires { Handable net done table.now }
    ensures { Hands net done table.now result }
{
    match done {
        Err(why) => Commanded {
            answer: Err(why),
            net,
        },
        Ok(said) => Commanded {
            answer: Ok(answer_of(said)),
            net: packed(net.plan, table),
        },
    }
}
