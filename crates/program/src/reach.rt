// What reaches a target, against what may.
ghost use Rattle.std.specs.Prelude.{◌≡◌, ℕ, ◌<◌, true, false};
ghost use Rattle.std.specs.Option as options;
ghost use Rattle.records.specs.Refusals.{number};
ghost use Rattle.records.specs.Rules.{Checked, first as first_failing};
ghost use Rattle.machine.specs.Command.{Command};
ghost use Rattle.program.specs.Checks.{masked};
ghost use Rattle.program.specs.Rules.{each_within};
ghost use Rattle.program.specs.Misfits.{inside};

use crate::context::Context;
use flow::Inflow;
use records::{Refusal, Rule};

// The lowest number that the one mask has and the other has not.
fn first_misfit(held: u64, admitted: u64) -> Option<u8>
    ensures { options.MatchOption result
        ((i : ℕ) → i < 64 → inside i held admitted ≡ true)
        (λ i. (i < 64) × (inside i held admitted ≡ false) × ((j : ℕ) → j < i → inside j held admitted ≡ true)) }
{
    let misfits = held & !admitted;
    if misfits == 0 {
        return None;
    }
    Some(misfits.trailing_zeros() as u8)
}

// All that reaches the target may: the lowest variable that may not, else the lowest condition.
pub(crate) fn check_reach(
    rule: Rule,
    place: usize,
    context: Context,
    inflow: Inflow,
) -> Result<(), Refusal>
    ensures { Checked {X = Command} (first_failing (each_within (number rule) place (masked context.variables context.conditions) (masked inflow.variables inflow.conditions))) result }
{
    if let Some(variable) = first_misfit(context.variables, inflow.variables) {
        return Err(rule.at(place, variable as u32));
    }
    if let Some(condition) = first_misfit(context.conditions as u64, inflow.conditions as u64) {
        return Err(rule.at(place, 256 + condition as u32));
    }
    Ok(())
}
