// The bench program of document 01: a plan and then commands from standard input, of any length, and a line for each. What has come is answered before more is
// read, so that a console behind a pipe has its line at once. Everything that decides anything is `plan`'s, `net`'s and `transcript`'s, and the first line is
// `shown`'s.
#![tactic(auto)]

ghost use Rattle.std.specs.Prelude.{◌≡◌, length};

use model::{Plan, PlanRefusal, ReadFault};
use text::{BadInput, Page};
use transcript::Halt;
use value::Net;

// The bytes that are held at a time, of input and of text.
const INPUT: usize = 65536;

const TEXT: usize = 131072;

// The records of the largest plan, and behind them the longest record: with so many bytes a reading is decided.
const PLAN: usize = Plan::FILE + 3;

// No input has so many pieces: a bound that lets every run end.
const PIECES: usize = usize::MAX;

// Where the program stands: its net, the bytes that it holds, the place of the next command in them, the offset of the first of them in the whole input,
// and how many commands were answered.
// kept: the input is lent by `main`, where it is made once: in this struct, which goes by value from turn to turn, its 65,536 bytes would be copied each time.
#[derive(Clone, Copy)]
struct Stand {
    net: Net,
    have: usize,
    at: usize,
    passed: usize,
    commands: usize,
}

// One read behind the bytes that are there; answers how many are there then: as many as before at the end, and where there is no room.
fn more(rt: &HostRuntime, input: &mut [u8], have: usize) -> usize
    ensures { length input.new ≡ length input.old }
{
    if input.len() < have {
        return have;
    }
    have + streams::read_some(&mut rt.stdin(), &mut input[have..])
}

// Writes the text up to a place; a failed write is told.
fn write(rt: &HostRuntime, text: &[u8], to: usize) -> bool {
    if text.len() < to {
        return false;
    }
    rt.write_all(&text[..to]).is_ok()
}

// Whether more bytes could change the reading: it ended where the bytes did, and a plan could be longer.
fn undecided(bytes: &[u8]) -> bool {
    if PLAN <= bytes.len() {
        return false;
    }
    let answer = plan::read(bytes).answer;
    matches!(
        answer,
        Err(ReadFault {
            why: PlanRefusal::InputEnds,
            ..
        })
    )
}

// Reads until the plan is decided or the input ends; answers how many bytes are there.
fn read_plan(rt: &HostRuntime, input: &mut [u8]) -> usize
    ensures { length input.new ≡ length input.old }
{
    let mut have = 0;
    for _ in 0..PLAN {
        let there = more(rt, input, have);
        if there == have {
            return have;
        }
        have = there;
        if input.len() < have {
            return have;
        }
        if !undecided(&input[..have]) {
            return have;
        }
    }
    have
}

// Writes the last line; there is nobody to tell where that fails.
fn close(rt: &HostRuntime, text: &mut [u8], why: Halt, commands: usize, offset: usize)
    requires { 131072 ≡ length text.old }
    ensures { length text.new ≡ length text.old }
{
    let mut page = Page { text, at: 0 };
    match why {
        Halt::End => page.done_line(commands),
        Halt::Cut => page.bad_line(u8::from(BadInput::Cut), offset),
        Halt::Unknown => page.bad_line(u8::from(BadInput::Unknown), offset),
        Halt::Full | Halt::Broken => {}
    }
    let to = page.at;
    write(rt, page.text, to);
}

// Moves what stands from a place on to the front; answers how many bytes are there then.
fn carry(input: &mut [u8], at: usize, have: usize) -> usize
    ensures { length input.new ≡ length input.old }
{
    if have <= at || input.len() < have {
        return 0;
    }
    input.copy_within(at..have, 0);
    have - at
}

// One turn: the commands that are there are answered and their lines written; then more is read, or the last line is written and nothing is left to do.
fn turn(rt: &HostRuntime, stand: Stand, input: &mut [u8], text: &mut [u8]) -> Option<Stand>
    requires { 131072 ≡ length text.old }
    ensures input_len_unchanged { length input.new ≡ length input.old }
    ensures text_len_unchanged { length text.new ≡ length text.old }
{
    let have = stand.have;
    if input.len() < have {
        return None;
    }
    let ran = transcript::run(stand.net, &input[..have], stand.at, text);
    if !write(rt, text, ran.to) {
        return None;
    }
    let commands = stand.commands.saturating_add(ran.commands);
    if ran.why == Halt::Full {
        return Some(Stand {
            net: ran.net,
            have,
            at: ran.at,
            passed: stand.passed,
            commands,
        });
    }
    let passed = stand.passed.saturating_add(ran.at);
    let rest = carry(input, ran.at, have);
    // More bytes may let it go on where it stopped at their end.
    let waits = matches!(ran.why, Halt::End | Halt::Cut);
    let there = if waits { more(rt, input, rest) } else { rest };
    if there != rest {
        return Some(Stand {
            net: ran.net,
            have: there,
            at: 0,
            passed,
            commands,
        });
    }
    close(rt, text, ran.why, commands, passed);
    None
}

fn main(rt: HostRuntime) {
    let mut input = [0u8; INPUT];
    let mut text = [0u8; TEXT];
    let have = read_plan(&rt, &mut input);
    if input.len() < have {
        return;
    }
    let read = plan::read(&input[..have]);
    let mut page = Page {
        text: &mut text,
        at: 0,
    };
    shown::first_line(&mut page, read);
    let to = page.at;
    if !write(&rt, &text, to) {
        return;
    }
    let Ok(used) = read.answer else {
        return;
    };
    let mut stand = Stand {
        net: net::make(read.plan).net,
        have,
        at: used,
        passed: 0,
        commands: 0,
    };
    for _ in 0..PIECES {
        let Some(next) = turn(&rt, stand, &mut input, &mut text) else {
            return;
        };
        stand = next;
    }
}
