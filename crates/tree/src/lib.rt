// The tree of counts of one site and the walk down it, for `book`. The tree stands in two arrays, sizes and slacks: the root at place 1, the
// halves of place n at 2n and 2n + 1, and the leaf of level k at 64 + k. It is built once from the leaves. A slack is stored with 64 added, so
// that it may fall below 0: at the root it does exactly where the site is not lawful. A slack of 255 is no limit.
#![tactic(auto)]

ghost use Rattle.std.specs.Prelude.{◌≡◌, true, cond, ◌↔◌, ◌+◌, ◌≤◌, eqb, length, sum};
ghost use Rattle.ids.specs.Limits.{most_threads};
ghost use Rattle.model.specs.Site.{A as above};
ghost use Rattle.model.specs.Tree.{root_height};
ghost use Rattle.lists.specs.Fill.{Filled};
ghost use Rattle.tree.specs.Places.{TreeCounts, Span, Fresh, leaf_size, leaf_slack, RowJoinable, pair_size, pair_slack, Built, Walkable, walk_in};
ghost use Rattle.tree.specs.Descent.{descent};

use ids::Site;
use model::{SiteRefused, Walked};

// The places of a tree over all levels; place 0 is not used.
const PLACES: usize = 2 * Site::THREADS;

const NO_LIMIT: u8 = 255;

// How a slack of 0 is stored.
const NO_SLACK: u8 = 64;

const ROOT: usize = 1;

const ROOT_HEIGHT: u8 = 6;
// The tree nodes that a walk stands on which does not leave the root.
const ROOT_ALONE: u8 = 1;

// The sum of the counts of some levels, added in words of two bytes, many at a time.
fn total(counts: &[u8]) -> usize
    requires { length counts.now ≤ most_threads }
    ensures { result ≡ sum counts.now }
{
    counts.iter().map(|count| *count as u16).sum::<u16>() as usize
}

// The active calls of the levels from `from` up to `to`, that one left out.
fn calls_in(counts: &[u8], from: usize, to: usize) -> usize
    requires { Span counts.now from to }
    ensures { result + above counts.now to ≡ above counts.now from }
{
    total(&counts[from..to])
}

// The active calls of level `from` and higher; none where the counts are not those of all levels.
pub fn calls_from(from: usize, counts: &[u8]) -> usize
    ensures { result ≡ cond (eqb (length counts.now) most_threads) (above counts.now from) 0 }
{
    if counts.len() != Site::THREADS {
        return 0;
    }
    if Site::THREADS < from {
        return 0;
    }
    calls_in(counts, from, Site::THREADS)
}

// Whether a tree can be built: the numbers are in range, no level at or above `threads` has a call, and there are no more calls than threads.
fn countable(threads: usize, counts: &[u8]) -> bool
    ensures { (result ≡ true) ↔ TreeCounts threads counts.now }
{
    if threads == 0 {
        return false;
    }
    if Site::THREADS < threads {
        return false;
    }
    if counts.len() != Site::THREADS {
        return false;
    }
    if calls_in(counts, threads, Site::THREADS) != 0 {
        return false;
    }
    calls_in(counts, 0, threads) <= threads
}

// What stands at each place: the calls of its levels, and its slack as it is stored.
#[derive(Clone, Copy)]
struct Tree {
    sizes: [u8; PLACES],
    slacks: [u8; PLACES],
}

impl Tree {
    // Sets the leaves of the levels below `threads`.
    fn leaves(&mut self, threads: usize, counts: &[u8])
        requires { TreeCounts threads counts.now }
        ensures filled { Filled (leaf_size counts.now) most_threads (most_threads + threads) self.old.sizes self.new.sizes }
        ensures filled_2 { Filled (leaf_slack threads counts.now) most_threads (most_threads + threads) self.old.slacks self.new.slacks }
    {
        let most = threads as u8 + NO_SLACK;
        for k in 0..threads {
            let count = counts[k];
            self.sizes[Site::THREADS + k] = count;
            self.slacks[Site::THREADS + k] = most - k as u8 - count;
        }
    }

    // Makes each of the places from `first` up to `end`, that one left out, from its two halves.
    fn join(&mut self, first: usize, end: usize)
        requires { RowJoinable self.old.sizes self.old.slacks first end }
        ensures filled { Filled (pair_size self.old.sizes) first end self.old.sizes self.new.sizes }
        ensures filled_2 { Filled (pair_slack self.old.sizes self.old.slacks) first end self.old.slacks self.new.slacks }
    {
        for n in first..end {
            let right = self.sizes[2 * n + 1];
            self.sizes[n] = self.sizes[2 * n] + right;
            self.slacks[n] = self.slacks[2 * n + 1].min(self.slacks[2 * n] - right);
        }
    }

    // Builds the tree in place, where no place has a call or a limit. Places whose levels are all at or above `threads` keep size 0 and no limit.
    fn build(&mut self, threads: usize, counts: &[u8])
        requires { TreeCounts threads counts.now × Fresh self.old.sizes self.old.slacks }
        ensures { Built root_height threads counts.now self.new.sizes self.new.slacks }
    {
        self.leaves(threads, counts);
        let mut first = Site::THREADS;
        let mut end = Site::THREADS + threads;
        // kept: two numbers are halved from row to row, so that no range gives them.
        while ROOT < first {
            first /= 2;
            end = (end + 1) / 2;
            self.join(first, end);
        }
    }

    // The walk from place n on, `height` above the leaves, with the calls to its right carried.
    fn walk(&self, height: u8, n: usize, carried: usize) -> Walked
        requires { Walkable self.now.sizes self.now.slacks height n carried }
        ensures { result ≡ walk_in self.now.sizes self.now.slacks height n carried }
    {
        if height == 0 {
            return Walked {
                leaf: (n - Site::THREADS) as u8,
                stood: 1,
            };
        }
        let with_right = self.sizes[2 * n + 1] as usize + carried;
        if self.slacks[2 * n] as usize == NO_SLACK as usize + with_right {
            let below = self.walk(height - 1, 2 * n, with_right);
            return Walked {
                leaf: below.leaf,
                stood: below.stood + 1,
            };
        }
        let below = self.walk(height - 1, 2 * n + 1, carried);
        Walked {
            leaf: below.leaf,
            stood: below.stood + 1,
        }
    }
}

// The walk from the root: where it ends is the highest admissible level plus 1.
pub fn descend(threads: usize, counts: &[u8]) -> Result<Walked, SiteRefused>
    ensures { result ≡ descent threads counts.now }
{
    if !countable(threads, counts) {
        return Err(SiteRefused);
    }
    let mut tree = Tree {
        sizes: [0; PLACES],
        slacks: [NO_LIMIT; PLACES],
    };
    tree.build(threads, counts);
    let root = tree.slacks[ROOT];
    if root < NO_SLACK {
        return Err(SiteRefused);
    }
    if NO_SLACK < root {
        return Ok(Walked {
            leaf: threads as u8,
            stood: ROOT_ALONE,
        });
    }
    Ok(tree.walk(ROOT_HEIGHT, ROOT, 0))
}
