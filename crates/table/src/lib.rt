// The table of open calls inside a run: arrays of numbers, dense, in the order of opening, zero past the count. Searches go by blocks of 32 places
// without an exit, which the back end turns into wide compares, and look closer in the block that hit. An inner crate: the library's own crates alone
// call it.
#![tactic(auto)]

ghost use Rattle.std.specs.Prelude.{Bool, false, ℕ, ◌≡◌, ◌+◌, ◌-◌, ◌≤◌, length};
ghost use Rattle.ids.specs.Limits.{most_open};
ghost use Rattle.lists.specs.Count.{some};
ghost use Rattle.table.specs.Places.{holds, between, past, block, Searched, Padded, Gap, Closings, Decides, passing, Looked, Found, Nothing};

use ids::Ticket;

// The places that a block has.
const BLOCK: usize = 32;

// The open calls: a number of each at its place, zeros behind them, and how many they are.
// kept: an array for each number and not one of calls: in that form a block of 32 tickets is four wide compares, and nothing here is on a heap.
#[derive(Clone, Copy)]
pub struct Table {
    pub tickets: [u16; Ticket::OPEN],
    pub parents: [u16; Ticket::OPEN],
    // 0 where the call is active, else one more than the place of its room.
    pub keys: [u16; Ticket::OPEN],
    pub nodes: [u8; Ticket::OPEN],
    pub used: usize,
}

// Whether a number of the block from `base` on passes a test.
// kept: a loop without an exit takes 16 instructions a block, and `any`, which has one, 104.
fn hit<F: Fn(u16) -> bool>(numbers: &[u16], base: usize, passes: &F) -> bool
    requires inside { base + block ≤ length numbers.now }
    requires callable { F.IsAlwaysCallable passes.now }
    ensures { (test : ℕ → Bool) → Decides (F.post passes.now) test → result ≡ some block (past base (passing test numbers.now)) }
{
    let mut hit = false;
    for j in 0..BLOCK {
        hit = hit | passes(numbers[base + j]);
    }
    hit
}

// The first place of such a number in the block.
fn look<F: Fn(u16) -> bool>(numbers: &[u16], base: usize, passes: &F) -> Option<usize>
    requires inside { base + block ≤ length numbers.now }
    requires callable { F.IsAlwaysCallable passes.now }
    ensures { (test : ℕ → Bool) → Decides (F.post passes.now) test → Looked result base (passing test numbers.now) }
{
    for j in 0..BLOCK {
        if passes(numbers[base + j]) {
            return Some(base + j);
        }
    }
    None
}

// The first place of a number that passes a test, which no zero does.
fn place<F: Fn(u16) -> bool>(numbers: &[u16], used: usize, passes: F) -> Option<usize>
    requires padded { Padded numbers.now used }
    requires callable { F.IsAlwaysCallable passes }
    ensures { (test : ℕ → Bool) → Decides (F.post passes) test → test 0 ≡ false → Found result (passing test numbers.now) }
{
    // kept: `step_by` takes 3 instructions more a block.
    for n in 0..(used + BLOCK - 1) / BLOCK {
        if hit(numbers, BLOCK * n, &passes) {
            return look(numbers, BLOCK * n, &passes);
        }
    }
    None
}

// Whether some number passes a test, which no zero does.
// kept: `place(..).is_some()` takes 45 instructions a block in place of 17, since nothing wants the place.
fn somewhere<F: Fn(u16) -> bool>(numbers: &[u16], used: usize, passes: F) -> bool
    requires padded { Padded numbers.now used }
    requires callable { F.IsAlwaysCallable passes }
    ensures { (test : ℕ → Bool) → Decides (F.post passes) test → test 0 ≡ false → result ≡ some most_open (passing test numbers.now) }
{
    for k in 0..(used + BLOCK - 1) / BLOCK {
        if hit(numbers, BLOCK * k, &passes) {
            return true;
        }
    }
    false
}

impl Table {
    // No call is open.
    pub fn empty() -> Table
        ensures { Nothing result }
    {
        Table {
            tickets: [0; Ticket::OPEN],
            parents: [0; Ticket::OPEN],
            keys: [0; Ticket::OPEN],
            nodes: [0; Ticket::OPEN],
            used: 0,
        }
    }

    // The place of an open call's ticket.
    pub fn find(&self, ticket: u16) -> Option<usize>
        requires { Searched self.now.tickets self.now.used ticket }
        ensures { Found result (holds self.now.tickets ticket) }
    {
        place(&self.tickets, self.used, |number| number == ticket)
    }

    // Whether a ticket stands among the parents.
    pub fn has_child(&self, ticket: u16) -> bool
        requires { Searched self.now.parents self.now.used ticket }
        ensures { result ≡ some most_open (holds self.now.parents ticket) }
    {
        somewhere(&self.parents, self.used, |number| number == ticket)
    }

    // The first place of a key above `low` and up to `top`.
    pub fn waiter(&self, low: u16, top: u16) -> Option<usize>
        requires { Padded self.now.keys self.now.used }
        ensures { Found result (between self.now.keys low top) }
    {
        place(&self.keys, self.used, |key| (low < key) & (key <= top))
    }

    // Closes the gap at a place: what stands behind it moves up, and the last place is zero.
    pub fn remove(&mut self, at: usize)
        requires { Gap self.old at }
        ensures closed { Closings at self.old.used self.old self.new }
        ensures counted { self.new.used ≡ self.old.used - 1 }
    {
        let used = self.used;
        let last = used - 1;
        // kept: `copy_within` on each array took the bench program 18 to 39 instructions more a command; with the narrower nodes in it the loop loses its wide moves.
        for i in at..last {
            self.tickets[i] = self.tickets[i + 1];
            self.parents[i] = self.parents[i + 1];
            self.keys[i] = self.keys[i + 1];
        }
        self.nodes.copy_within(at + 1..used, at);
        self.tickets[last] = 0;
        self.parents[last] = 0;
        self.keys[last] = 0;
        self.nodes[last] = 0;
        self.used = last;
    }
}
