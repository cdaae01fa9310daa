// The text inside a run: items and lines written into a lent buffer. An inner crate: the library's own crates alone call it, and leave room for what is
// written.
#![tactic(auto)]

ghost use Rattle.std.specs.Prelude.{◌+◌, ◌≤◌, ◌<◌, ◌≡◌, [], ◌∷◌, length};
ghost use Rattle.model.specs.Text.{decimal, spaced, plan_line, plan_refused_line, done_line, bad_line};
ghost use Rattle.text.specs.Put.{Put, Puts};
ghost use Rattle.text.specs.Lines.{bad_number, pair_text, printed, answer_end, accepted_told, shown_told, mark_told, asked_text};
ghost use Rattle.text.specs.Room.{number_room, long_room, said_room, answer_room, line_room, plan_room, plan_refused_room, done_room, bad_room, HasRoom};

use model::Refusal;

// What an answer says, where it is no refusal.
#[derive(Clone, Copy, PartialEq, Eq)]
pub enum Printed {
    // A start or a call: the call is active.
    Active,
    // Or it waits, with the level in the way.
    Waits(u8),
    // A question: the call is active, waits, or is not open.
    Running,
    Waiting,
    Absent,
    // A return's ticket, or a room.
    Number(u16),
}

// What stands behind the numbers of a line, whatever is said: a letter, a number, `R` and a refusal's number, or `W` and a level.
#[derive(Clone, Copy, PartialEq, Eq)]
pub enum Mark {
    Letter(u8),
    Number(u16),
    Refusal(u8),
    Level(u8),
}

// Why an input is bad.
#[derive(Clone, Copy, PartialEq, Eq)]
pub enum BadInput {
    // It ends inside a record.
    Cut,
    // A record has no known kind.
    Unknown,
}

impl From<BadInput> for u8 {
    ghost from_gives = { λ why number. number ≡ bad_number why };

    fn from(why: BadInput) -> u8 {
        match why {
            BadInput::Cut => 1,
            BadInput::Unknown => 2,
        }
    }
}

// The digit 0.
const ZERO: u16 = 48;

// Two digits at a place, and the place behind them. They are made as one number, the first in its low byte, so that the back end stores both at once.
fn put_pair(text: &mut [u8], at: usize, n: u16) -> usize
    requires { (n < 100) × (at + 2 ≤ length text.old) }
    ensures { Put text.old at (pair_text n) text.new result }
{
    let two = (ZERO + n / 10) + 256 * (ZERO + n % 10);
    text[at] = (two % 256) as u8;
    text[at + 1] = (two / 256) as u8;
    at + 2
}

// A space and a number of up to five digits, straight on: it stands in every line. Most tickets have five.
// kept: the place is handed on and not kept in the page, which took 24 instructions more a command.
fn put_number(text: &mut [u8], at: usize, n: u16) -> usize
    requires { at + number_room ≤ length text.old }
    ensures { Put text.old at (spaced n) text.new result }
{
    text[at] = b' ';
    if 10000 <= n {
        text[at + 1] = b'0' + (n / 10000) as u8;
        let rest = n % 10000;
        let middle = put_pair(text, at + 2, rest / 100);
        return put_pair(text, middle, rest % 100);
    }
    if n < 10 {
        text[at + 1] = b'0' + n as u8;
        return at + 2;
    }
    if n < 100 {
        return put_pair(text, at + 1, n);
    }
    if n < 1000 {
        text[at + 1] = b'0' + (n / 100) as u8;
        return put_pair(text, at + 2, n % 100);
    }
    let middle = put_pair(text, at + 1, n / 100);
    put_pair(text, middle, n % 100)
}

// A lent text, and the place behind what was written into it.
#[derive(Drop)]
pub struct Page<'a> {
    pub text: &'a mut [u8],
    pub at: usize,
}

impl<'a> Page<'a> {
    // A byte.
    pub fn put(&mut self, byte: u8)
        requires { HasRoom self.old 1 }
        ensures same_reference { self.new.text.ghost_name ≡ self.old.text.ghost_name }
        ensures put { Puts self.old (byte ∷ []) self.new }
    {
        self.text[self.at] = byte;
        self.at += 1;
    }

    // Some bytes.
    pub fn puts(&mut self, bytes: &[u8])
        requires { HasRoom self.old (length bytes.now) }
        ensures same_reference { self.new.text.ghost_name ≡ self.old.text.ghost_name }
        ensures put { Puts self.old bytes.now self.new }
    {
        for byte in bytes {
            self.put(*byte);
        }
    }

    // A space and a number of up to five digits.
    pub fn number(&mut self, n: u16)
        requires { HasRoom self.old number_room }
        ensures same_reference { self.new.text.ghost_name ≡ self.old.text.ghost_name }
        ensures put { Puts self.old (spaced n) self.new }
    {
        self.at = put_number(self.text, self.at, n);
    }

    // The digits of any number: those of its tenth first, and then the last one.
    pub fn digits(&mut self, n: usize)
        requires { HasRoom self.old (length (decimal n)) }
        ensures same_reference { self.new.text.ghost_name ≡ self.old.text.ghost_name }
        ensures put { Puts self.old (decimal n) self.new }
    {
        if n < 10 {
            self.put(b'0' + n as u8);
            return;
        }
        self.digits(n / 10);
        self.put(b'0' + (n % 10) as u8);
    }

    // A space and any number.
    pub fn long_number(&mut self, n: usize)
        requires { HasRoom self.old long_room }
        ensures same_reference { self.new.text.ghost_name ≡ self.old.text.ghost_name }
        ensures put { Puts self.old (spaced n) self.new }
    {
        self.put(b' ');
        self.digits(n);
    }

    // A space and a letter.
    fn letter(&mut self, mark: u8)
        requires { HasRoom self.old 2 }
        ensures same_reference { self.new.text.ghost_name ≡ self.old.text.ghost_name }
        ensures put { Puts self.old (32 ∷ mark ∷ []) self.new }
    {
        self.put(b' ');
        self.put(mark);
    }

    // A space, a letter and a number.
    fn marked(&mut self, letter: u8, n: u8)
        requires { HasRoom self.old said_room }
        ensures same_reference { self.new.text.ghost_name ≡ self.old.text.ghost_name }
        ensures put { Puts self.old (32 ∷ letter ∷ spaced n) self.new }
    {
        self.letter(letter);
        self.number(n as u16);
    }

    // The answer of a request that is not refused.
    fn accepted(&mut self, said: Printed)
        requires { HasRoom self.old said_room }
        ensures same_reference { self.new.text.ghost_name ≡ self.old.text.ghost_name }
        ensures put { Puts self.old (printed (accepted_told said)) self.new }
        ensures few { length (printed (accepted_told said)) ≤ said_room }
    {
        match said {
            Printed::Active => self.letter(b'G'),
            Printed::Waits(level) => self.marked(b'W', level),
            Printed::Running => self.letter(b'A'),
            Printed::Waiting => self.letter(b'W'),
            Printed::Absent => self.letter(b'N'),
            Printed::Number(n) => self.number(n),
        }
    }

    // An answer.
    fn said(&mut self, what: Result<Printed, Refusal>)
        requires { HasRoom self.old said_room }
        ensures same_reference { self.new.text.ghost_name ≡ self.old.text.ghost_name }
        ensures put { Puts self.old (printed (shown_told what)) self.new }
        ensures few { length (printed (shown_told what)) ≤ said_room }
    {
        match what {
            Ok(said) => self.accepted(said),
            Err(why) => self.marked(b'R', u8::from(why)),
        }
    }

    // An answer and the line's end.
    fn answer(&mut self, what: Result<Printed, Refusal>)
        requires { HasRoom self.old answer_room }
        ensures same_reference { self.new.text.ghost_name ≡ self.old.text.ghost_name }
        ensures put { Puts self.old (answer_end (shown_told what)) self.new }
    {
        self.said(what);
        self.put(b'\n');
    }

    // A command's line: its letter, its one or two numbers and the answer.
    pub fn line(
        &mut self,
        letter: u8,
        first: u16,
        second: Option<u16>,
        what: Result<Printed, Refusal>,
    )
        requires { HasRoom self.old line_room }
        ensures same_reference { self.new.text.ghost_name ≡ self.old.text.ghost_name }
        ensures put { Puts self.old (asked_text letter first second (shown_told what)) self.new }
    {
        self.put(letter);
        self.number(first);
        let Some(more) = second else {
            self.answer(what);
            return;
        };
        self.number(more);
        self.answer(what);
    }

    // A letter, a number, a refusal's number behind `R`, or a level behind `W`.
    fn mark(&mut self, what: Mark)
        requires { HasRoom self.old said_room }
        ensures same_reference { self.new.text.ghost_name ≡ self.old.text.ghost_name }
        ensures put { Puts self.old (printed (mark_told what)) self.new }
        ensures few { length (printed (mark_told what)) ≤ said_room }
    {
        match what {
            Mark::Letter(letter) => self.letter(letter),
            Mark::Number(n) => self.number(n),
            Mark::Refusal(number) => self.marked(b'R', number),
            Mark::Level(level) => self.marked(b'W', level),
        }
    }

    // The same and the line's end.
    fn mark_end(&mut self, what: Mark)
        requires { HasRoom self.old answer_room }
        ensures same_reference { self.new.text.ghost_name ≡ self.old.text.ghost_name }
        ensures put { Puts self.old (answer_end (mark_told what)) self.new }
    {
        self.mark(what);
        self.put(b'\n');
    }

    // A line of any letters and numbers: its letter, its one or two numbers and what stands behind them.
    // A command's line has its own function: through this one it took 9 instructions more.
    pub fn marked_line(&mut self, word: u8, first: u16, second: Option<u16>, what: Mark)
        requires { HasRoom self.old line_room }
        ensures same_reference { self.new.text.ghost_name ≡ self.old.text.ghost_name }
        ensures put { Puts self.old (asked_text word first second (mark_told what)) self.new }
    {
        self.put(word);
        self.number(first);
        let Some(next) = second else {
            self.mark_end(what);
            return;
        };
        self.number(next);
        self.mark_end(what);
    }

    // The first line, of a plan that is accepted.
    pub fn plan_line(&mut self, sites: usize, nodes: usize, edges: usize, bytes: usize)
        requires { HasRoom self.old plan_room }
        ensures same_reference { self.new.text.ghost_name ≡ self.old.text.ghost_name }
        ensures put { Puts self.old (plan_line sites nodes edges bytes) self.new }
    {
        self.puts(b"plan");
        self.long_number(sites);
        self.long_number(nodes);
        self.long_number(edges);
        self.long_number(bytes);
        self.put(b'\n');
    }

    // The first line, of a plan that is refused.
    pub fn plan_refused_line(&mut self, refusal: u8, offset: usize)
        requires { HasRoom self.old plan_refused_room }
        ensures same_reference { self.new.text.ghost_name ≡ self.old.text.ghost_name }
        ensures put { Puts self.old (plan_refused_line refusal offset) self.new }
    {
        self.puts(b"plan R");
        self.number(refusal as u16);
        self.long_number(offset);
        self.put(b'\n');
    }

    // The last line, of an input that ended behind a whole command.
    pub fn done_line(&mut self, commands: usize)
        requires { HasRoom self.old done_room }
        ensures same_reference { self.new.text.ghost_name ≡ self.old.text.ghost_name }
        ensures put { Puts self.old (done_line commands) self.new }
    {
        self.puts(b"done");
        self.long_number(commands);
        self.put(b'\n');
    }

    // The last line, of an input that is bad, and by which number (`BadInput`).
    pub fn bad_line(&mut self, why: u8, offset: usize)
        requires { HasRoom self.old bad_room }
        ensures same_reference { self.new.text.ghost_name ≡ self.old.text.ghost_name }
        ensures put { Puts self.old (bad_line why offset) self.new }
    {
        self.puts(b"bad");
        self.number(why as u16);
        self.long_number(offset);
        self.put(b'\n');
    }
}
