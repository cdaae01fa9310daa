// The site book's level answer as a C function, and nothing beside it. include/admission.h declares it.
#![tactic(auto)]

ghost use Rattle.std.specs.Prelude.{◌≡◌};
ghost use Rattle.model.specs.Answers.{firmware};

// The highest admissible level plus 1, 0 for none, or 255 as a refusal.
#[unsafe(no_mangle)]
pub extern "C" fn admission_level(threads: u32, counts: &[u8]) -> u8
    ensures { result ≡ firmware threads counts.now }
{
    book::admission_level(threads, counts)
}
