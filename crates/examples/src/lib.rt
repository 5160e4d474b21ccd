// Worked examples as theorems: each is named in a contract, so without its proof the crate fails.
#![tactic(auto)]

ghost use Rattle.std.specs.Prelude.{◌≡◌};
ghost use Rattle.examples.specs.Worked.{WorkedExamples};

/// All worked examples hold, on policies, lattices, sheets, the machine and stores.
pub fn worked_examples_hold() -> u8
    ensures answer { result ≡ 0 }
    ensures examples { WorkedExamples }
{
    0
}
