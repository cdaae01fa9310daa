// "The reader goes through the lent bytes from record to record, keeping its place": a reader that holds the bytes of a plan and the offset at which
// it stands. Its methods are few, and the work is `record`'s, on the slice and the offset. `record_at`, whose parameters are plain, serves every other
// caller. An inner crate: the library's own crates alone call it.
#![tactic(auto)]

ghost use Rattle.std.specs.Prelude.{◌≡◌};
ghost use Rattle.record.specs.Step.{next_in};
ghost use Rattle.reader.specs.ReaderAt.{reader_at};

use model::PlanRefusal;
use record::Found;

#[derive(Clone, Copy)]
pub struct Reader<'a> {
    pub bytes: &'a [u8],
    pub at: usize,
}

impl<'a> Reader<'a> {
    // The reader of some bytes, at their front.
    pub fn new(bytes: &'a [u8]) -> Reader<'a>
        ensures { result ≡ reader_at bytes.entry 0 }
    {
        Reader { bytes, at: 0 }
    }

    // Where it stands.
    pub fn at(self) -> usize
        ensures { result ≡ self.entry.at }
    {
        self.at
    }

    // The reader of the same bytes, at another offset.
    pub fn moved(self, at: usize) -> Reader<'a>
        ensures { result ≡ reader_at self.entry.bytes at }
    {
        Reader { at, ..self }
    }

    // The record where it stands with the offset behind it, or why there is none.
    pub fn next(self) -> Result<Found, PlanRefusal>
        ensures { result ≡ next_in self.entry.bytes.now self.entry.at }
    {
        record::next_record(self.bytes, self.at)
    }
}

// What a reader of these bytes says at an offset.
pub fn record_at(bytes: &[u8], at: usize) -> Result<Found, PlanRefusal>
    ensures { result ≡ next_in bytes.now at }
{
    Reader::new(bytes).moved(at).next()
}
