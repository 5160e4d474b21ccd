// Every rule that is asked of one record.
ghost use Rattle.std.specs.Prelude.{◌≡◌, ℕ, ◌+◌, ◌<◌, List, [], ◌∷◌, MatchResult};
ghost use Rattle.records.specs.declared.Record.{Record as AnyRecord};
ghost use Rattle.records.specs.Rules.{Checked, rule as asked, first as first_failing};
ghost use Rattle.policy.specs.Masks.{bit};
ghost use Rattle.machine.specs.Command.{Command};
ghost use Rattle.program.specs.Checks.{masked};
ghost use Rattle.program.specs.Rules.{each_within};
ghost use Rattle.program.specs.Contexts.{with_conditions};
ghost use Rattle.program.specs.Reading.{context_of, Passed, Refused};

use crate::checker::Checker;
use crate::context::Context;
use crate::innermost::RecordKind;
use crate::letters::kind_at;
use crate::placed::{Block, Line};
use crate::reach::check_reach;
use flow::{Inflow, PermitFlow};
use policy::has;
use records::{Refusal, Rule};

// What a release reaches: its target under the permit's conditions too, and by the permit; and its source.
fn check_release(
    line: Line,
    context: Context,
    permit: PermitFlow,
    inflow: Inflow,
) -> Result<(), Refusal>
    ensures { Checked {X = Command} (λ a. first_failing (each_within 16 line.place (context_of (with_conditions permit.conditions context)) (masked inflow.variables inflow.conditions))
        (first_failing (asked 16 line.place (512 + line.first.c) (bit line.first.a permit.targets) ∷ asked 18 line.place 0 (bit line.first.b permit.sources) ∷ []) a)) result }
{
    let Line { first, place } = line;
    check_reach(
        Rule::Reaching,
        place,
        context.with_conditions(permit.conditions),
        inflow,
    )?;
    if !has(permit.targets, first.a) {
        return Err(Rule::Reaching.at(place, 512 + first.c as u32));
    }
    if !has(permit.sources, first.b) {
        return Err(Rule::Released.at(place, 0));
    }
    Ok(())
}

impl Checker<'_> {
    // Every rule that is asked of the record at this place, with so many blocks open: what it is, or the first that fails.
    pub(crate) fn check_record(&self, line: Line, block: Block) -> Result<RecordKind, Refusal>
        ensures { MatchResult result
            (λ k. Passed self.now.masks.now self.now.context block.opened block.innermost line.place line.first k)
            (λ e. (rs : List AnyRecord) → Refused self.now.masks.now self.now.context block.opened block.innermost line.place (line.first ∷ rs) e) }
    {
        let Line { first, place } = line;
        let (masks, context) = (self.masks, self.context);
        let kind = kind_at(first.letter, block.innermost).ok_or(Rule::ProgramLetter.at(place, 0))?;
        match kind {
            RecordKind::Set => {
                let target = line.check_set(masks.variables)?;
                let inflow = masks.variable[target as usize].inflow;
                check_reach(Rule::Reaching, place, context, inflow)?;
            }
            RecordKind::Sign(_) => {
                let target = line.check_three(masks.variables, masks.variables)?;
                let reading = context.with_variable(first.c).with_variable(first.b);
                let inflow = masks.variable[target as usize].inflow;
                check_reach(Rule::Reaching, place, reading, inflow)?;
            }
            RecordKind::Release => {
                let target = line.check_three(masks.variables, masks.permits)?;
                let permit = masks.permit[first.c as usize];
                let inflow = masks.variable[target as usize].inflow;
                check_release(line, context, permit, inflow)?;
            }
            RecordKind::Raise => {
                let condition = line.check_raise(masks.conditions)?;
                let inflow = masks.condition[condition as usize];
                check_reach(Rule::Reaching, place, context, inflow)?;
            }
            RecordKind::VariableTest => {
                line.check_variable_test(masks.variables, block.opened)?;
            }
            RecordKind::ConditionTest => {
                line.check_condition_test(masks.conditions, block.opened)?;
            }
            RecordKind::Loop => {
                line.check_variable_test(masks.variables, block.opened)?;
                let inside = context.with_variable(first.b);
                check_reach(Rule::LoopLowest, place, inside, masks.lowest)?;
            }
            RecordKind::Mark => line.check_mark()?,
        }
        Ok(kind)
    }
}
