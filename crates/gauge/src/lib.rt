// Reading and checking a plan as one C function, and nothing beside it, so that the stack and the instructions of the plan check can be measured.
#![tactic(auto)]

ghost use Rattle.std.specs.Prelude.{◌≡◌, get_or};
ghost use Rattle.model.specs.Reading.{read as reading};
ghost use Rattle.model.specs.PlanValue.{reading_told};

// 0 for a plan that is accepted, else the refusal's number in document 01: the first number that a reading tells.
#[unsafe(no_mangle)]
pub extern "C" fn plan_refusal(bytes: &[u8]) -> u8
    ensures { result ≡ get_or (reading_told (reading bytes.now)) 0 0 }
{
    match plan::read(bytes).answer {
        Ok(_) => 0,
        Err(fault) => plan::refusal_number(fault.why),
    }
}
