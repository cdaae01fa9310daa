// Reading a plan: from record to record through the lent bytes, up to the end record, and then the checks on the whole plan.
#![tactic(auto)]

ghost use Rattle.std.specs.Prelude.{◌≡◌};
ghost use Rattle.model.specs.Reading.{scanned as scanning, read as reading};
ghost use Rattle.model.specs.PlanValue.{refusal_number};
ghost use Rattle.plan.specs.Answers.{ReadTold, Turn};

use model::{Plan, PlanRead, PlanRecord, PlanRefusal, ReadFault};
use record::Found;

// A refusal's number in document 01.
pub fn refusal_number(why: PlanRefusal) -> u8
    ensures { result ≡ refusal_number why }
{
    u8::from(why)
}

// The record at an offset, where it can be read and passes its checks behind the records that a plan holds.
fn passing<'a>(
    bytes: &'a [u8],
    at: usize,
    plan: &'a Plan,
    last: PlanRecord,
) -> Result<Found, PlanRefusal>
    ensures { Turn bytes.now at plan.now last result }
{
    let found = reader::record_at(bytes, at)?;
    record::check_behind(plan, last, found.next)?;
    Ok(found)
}

// Reads records up to the end record, before the checks on the whole plan. Each is stored in place: a plan that went to another function and back
// would be copied for each record. The empty plan is made once: with one made for the refusal too, the program `depends` took 1,328 bytes of stack more.
pub fn scan(bytes: &[u8]) -> PlanRead
    ensures { ReadTold result (scanning bytes.now) }
{
    let none = record::empty();
    let mut plan = none;
    let mut last = PlanRecord::End;
    let mut at = 0;
    loop {
        let turn = passing(bytes, at, &plan, last).map_err(|why| ReadFault { why, offset: at });
        let Ok(Found { next, behind }) = turn else {
            return PlanRead {
                answer: turn.map(|found| found.behind),
                plan: none,
            };
        };
        if let PlanRecord::End = next {
            return PlanRead {
                answer: Ok(behind),
                plan,
            };
        }
        record::store_in(&mut plan, next);
        last = next;
        at = behind;
    }
}

// Reads a plan from the front of some bytes. What stands behind the end record does not matter.
pub fn read(bytes: &[u8]) -> PlanRead
    ensures { ReadTold result (reading bytes.now) }
{
    let scanned = scan(bytes);
    let Ok(used) = scanned.answer else {
        return scanned;
    };
    if let Err(why) = record::check_end(scanned.plan) {
        let none = record::empty();
        let offset = used - 1;
        return PlanRead {
            answer: Err(ReadFault { why, offset }),
            plan: none,
        };
    }
    scanned
}
