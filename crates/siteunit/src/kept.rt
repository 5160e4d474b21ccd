// What a box keeps of an accepted sheet.
ghost use Rattle.std.specs.Prelude.{◌≡◌, ◌<◌, ◌≤◌, length, take, MatchResult};
ghost use Rattle.records.specs.declared.rule.Rule.TheVariants.{IsCondition, IsVariable};

use flow::FlowMasks;
use records::Rule;
use sheet::VariableRow;

/// Who may know a variable for now, by its present level, and whether the outside may feed it.
#[derive(Clone, Copy, Default)]
pub(crate) struct Access {
    pub(crate) present: u32,
    pub(crate) fed: bool,
}

impl From<&VariableRow> for Access {
    ghost use Rattle.siteunit.specs.Standing.{access_of};

    ghost from_gives = { λ row access. access ≡ access_of row.now };

    fn from(row: &VariableRow) -> Access {
        Access {
            present: row.policy.present_level(),
            fed: row.fed,
        }
    }
}

/// An accepted sheet: the levels of its conditions, the access to each variable, and what may flow where.
#[derive(Clone, Copy)]
pub(crate) struct KeptSheet {
    // Tables beside the masks, whose type says what may flow and not who may know; no heap, so all have fixed room.
    pub(crate) levels: [u32; 16],
    pub(crate) access: [Access; 64],
    pub(crate) masks: FlowMasks,
    ghost sizes: { (length levels ≡ 16) × (length access ≡ 64) },
}

// The place of what has this number, if so many are declared; else this rule is broken.
fn place_of(number: u8, count: usize, rule: Rule) -> Result<usize, Rule>
    ensures { MatchResult result
        (λ place. (place ≡ number) × (number < count))
        (λ broken. (broken ≡ rule) × (count ≤ number)) }
{
    let place = number as usize;
    if place < count { Ok(place) } else { Err(rule) }
}

impl KeptSheet {
    /// The access to each variable that the sheet declares.
    pub(crate) fn declared(&self) -> &[Access]
        ensures { result.now ≡ take self.now.masks.variables self.now.access }
    {
        &self.access[..self.masks.variables]
    }

    /// The place of a variable, if the sheet declares it.
    pub(crate) fn variable(&self, variable: u8) -> Result<usize, Rule>
        ensures { MatchResult result
            (λ place. (place ≡ variable) × (variable < self.now.masks.variables))
            (λ rule. (rule ≡ IsVariable) × (self.now.masks.variables ≤ variable)) }
    {
        place_of(variable, self.masks.variables, Rule::IsVariable)
    }

    /// The place of a condition, if the sheet declares it.
    pub(crate) fn condition(&self, condition: u8) -> Result<usize, Rule>
        ensures { MatchResult result
            (λ place. (place ≡ condition) × (condition < self.now.masks.conditions))
            (λ rule. (rule ≡ IsCondition) × (self.now.masks.conditions ≤ condition)) }
    {
        place_of(condition, self.masks.conditions, Rule::IsCondition)
    }
}
