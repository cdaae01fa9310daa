// A set of nodes in one word: node n is in it where bit n is set.
// kept: functions on a plain u64, as document 01 has it, and no type of its own: rows are arrays of words, and a row of reached nodes is stepped through by its trailing zeros.
#![tactic(auto)]

ghost use Rattle.std.specs.Prelude.{◌≡◌};
ghost use Rattle.words.specs.Words.{member, inserted, least, without_least, difference};

use ids::Node;

// Whether a number is in the set; those that are no nodes never are.
pub fn has(word: u64, n: u8) -> bool
    ensures { result ≡ member word n }
{
    if Node::COUNT <= n as usize {
        return false;
    }
    (word >> n as u64) % 2 == 1
}

// The set with a node more; a number that is no node changes nothing.
pub fn with(word: u64, n: u8) -> u64
    ensures { result ≡ inserted word n }
{
    if Node::COUNT <= n as usize {
        return word;
    }
    word | (1 << n as u64)
}

// The least node of the set, by the word's trailing zeros; of the empty set 64, which is no node.
pub fn lowest(word: u64) -> usize
    ensures { result ≡ least word }
{
    word.trailing_zeros() as usize
}

// The set without its least node.
pub fn without_lowest(word: u64) -> u64
    ensures { result ≡ without_least word }
{
    if word == 0 {
        return 0;
    }
    word & (word - 1)
}

// Of one set those that are not in another.
pub fn minus(word: u64, other: u64) -> u64
    ensures { result ≡ difference word other }
{
    word & !other
}
