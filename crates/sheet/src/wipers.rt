// The conditions that wipe a variable.
ghost use Rattle.std.specs.Prelude.{slice_index_or};
ghost use Rattle.policy.specs.Rows.{no_leaf};
ghost use Rattle.records.specs.Rules.{Checked, first};
ghost use Rattle.sheet.specs.Sheet.{Sheet};
ghost use Rattle.sheet.specs.Checks.{wiper_rules};

use crate::read::SheetReader;
use lattice::Lattice;
use policy::{Row, has};
use records::{Refusal, Rule};

impl<'l, L: Lattice> SheetReader<'l, L> {
    // Rule 9: the conditions that wipe a variable have levels below its present level.
    pub(crate) fn check_wipers(&self, policy: &Row, place: usize) -> Result<(), Refusal>
        ensures { let present = (slice_index_or policy.now.levels 0 no_leaf).level in Checked {X = Sheet} (first (wiper_rules (L.Lattice.lattice self.now.lattice.now) self.now.table.levels policy.now.wipers present place)) result }
    {
        let present = policy.present_level();
        for (condition, level) in self.table.levels.iter().enumerate() {
            if has(policy.wipers.into(), condition as u8) && !self.lattice.below(*level, present) {
                return Err(Rule::WipersBelow.at(place, condition as u32));
            }
        }
        Ok(())
    }
}
