//! What is written is read again.

ghost use Rattle.std.specs.Prelude.{◌≡◌, Ok};
ghost use Rattle.host_inputs.specs.Inputs.{Input, FitsInput, input_bytes};
ghost use Rattle.host_inputs.specs.Checking.{IsSound};
ghost use Rattle.host_inputs.specs.Reading.{input_in};

/// The bytes of an input in which nothing is wrong say that input.
pub fn inputs_are_read_again()
    ensures { (input : Input) → FitsInput input → IsSound input
        → input_in (input_bytes input) ≡ Ok input }
{}
