// Reading as the programs do it, where a read that fails counts as the end of the input.
#![tactic(auto)]

ghost use Rattle.std.specs.Prelude.{◌≡◌, ◌≤◌, length, take};
ghost use Rattle.std.specs.Io.KnownBytes.{Consumes};

use std::io::Read;

// One read, of as many bytes as have come; answers how many stand at the start of the bytes then. None: the input ended, or the read failed.
pub fn read_some<R: Read>(input: &mut R, bytes: &mut [u8]) -> usize
    ensures bound { result ≤ length bytes.new }
    ensures len_unchanged { length bytes.new ≡ length bytes.old }
    ensures bytes { Consumes (R.remaining input.old) (R.remaining input.new) (take result bytes.new) }
{
    match input.read(bytes) {
        Ok(got) => got,
        Err(_) => 0,
    }
}

// Reads until the bytes are full or the input ends; answers how many stand at the start of the bytes then.
pub fn read_full<R: Read>(input: &mut R, bytes: &mut [u8]) -> usize
    ensures bound { result ≤ length bytes.new }
    ensures len_unchanged { length bytes.new ≡ length bytes.old }
    ensures bytes { Consumes (R.remaining input.old) (R.remaining input.new) (take result bytes.new) }
{
    let most = bytes.len();
    let mut done = 0;
    for _ in 0..most {
        if done == most {
            return done;
        }
        let got = read_some(input, &mut bytes[done..]);
        if got == 0 {
            return done;
        }
        done += got;
    }
    done
}
