// The site book: which levels may be admitted at a site with some threads and some active calls. Every function takes the thread count and the
// 64 counts of active calls by level, and answers a refusal where they are not those of a lawful site.
// kept: the two stand apart in each signature, as they do in the C function: the counts are the firmware's own array, which is lent and not copied.
#![tactic(auto)]

ghost use Rattle.std.specs.Prelude.{◌≡◌};
ghost use Rattle.lists.specs.Count.{smallest};
ghost use Rattle.model.specs.Site.{blocking, spare};
ghost use Rattle.book.specs.Asked.{Asked};
ghost use Rattle.model.specs.Answers.{told_level, told_admission, told_room, level_answer, admission_answer, room_answer, firmware};

use ids::Level;
use model::{Admission, Highest, RoomRefused, SiteRefused};

// What the firmware gets where the site is refused.
const REFUSED: u8 = 255;

// The highest admissible level, and how many tree nodes the walk stood on to find it.
pub fn level(threads: u8, counts: &[u8]) -> Result<Highest, SiteRefused>
    ensures { told_level result ≡ level_answer threads counts.now }
{
    let walked = tree::descend(threads as usize, counts)?;
    Ok(Highest {
        level: walked.leaf.checked_sub(1).map(Level),
        stood: walked.stood,
    })
}

// The highest full level at or below one that may not be admitted. The levels are read downwards from it, with the calls at or above each.
fn blocking(threads: u8, counts: &[u8], asked: u8) -> u8
    requires { Asked threads counts.now asked }
    ensures { result ≡ blocking threads counts.now asked }
{
    let mut active = tree::calls_from(asked as usize, counts);
    for k in (1..=asked).rev() {
        if active == (threads - k) as usize {
            return k;
        }
        active += counts[k as usize - 1] as usize;
    }
    0
}

// Whether a call of a level may be admitted, and if not the level in the way.
pub fn admission(threads: u8, counts: &[u8], asked: Level) -> Result<Admission, SiteRefused>
    ensures { told_admission result ≡ admission_answer threads counts.now asked.0 }
{
    let walk = tree::descend(threads as usize, counts)?;
    if threads <= asked.0 {
        return Err(SiteRefused);
    }
    if asked.0 < walk.leaf {
        return Ok(Admission::Admitted);
    }
    Ok(Admission::Waits(Level(blocking(threads, counts, asked.0))))
}

// The smallest T - k - A[k] up to a level, with the calls at or above each level counted along.
fn least_spare(threads: u8, counts: &[u8], wanted: u8) -> u8
    requires { Asked threads counts.now wanted }
    ensures { result ≡ smallest wanted (spare threads counts.now) }
{
    let mut active = tree::calls_from(0, counts);
    let mut least = threads as usize - active;
    for k in 0..wanted {
        active -= counts[k as usize] as usize;
        least = least.min((threads - (k + 1)) as usize - active);
    }
    least as u8
}

// The status page's figure for a level: how many calls of it could be admitted one after another.
pub fn room(threads: u8, counts: &[u8], wanted: Level) -> Result<u8, RoomRefused>
    ensures { told_room result ≡ room_answer threads counts.now wanted.0 }
{
    tree::descend(threads as usize, counts)?;
    if threads <= wanted.0 {
        return Err(RoomRefused::NoSuchLevel);
    }
    Ok(least_spare(threads, counts, wanted.0))
}

// The level answer for the switch's C firmware: the highest admissible level plus 1, 0 for none, or 255 as a refusal. The thread count is a word,
// so that no count is cut to a byte on the way in.
pub fn admission_level(threads: u32, counts: &[u8]) -> u8
    ensures { result ≡ firmware threads counts.now }
{
    tree::descend(threads as usize, counts).map_or(REFUSED, |walked| walked.leaf)
}
