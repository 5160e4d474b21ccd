// Declassification permits with their trees.
ghost use Rattle.std.specs.Prelude.{◌≡◌, IfOk};
ghost use Rattle.records.specs.Rules.{Checked, first};
ghost use Rattle.sheet.specs.Sheet.{Sheet};
ghost use Rattle.sheet.specs.Checks.{mask_rules};
ghost use Rattle.sheet.specs.Forward.{Forward, ItemAnswered};

use crate::placed::Placed;
use crate::read::SheetReader;
use crate::rows::Grant;
use lattice::Lattice;
use policy::has;
use records::{Cursor, Refusal, Rule};

// The conditions of a mask are declared.
fn check_mask(mask: u32, conditions: usize, place: usize) -> Result<(), Refusal>
    ensures { Checked {X = Sheet} (first (mask_rules conditions mask place)) result }
{
    let undeclared = (0..32u8).find(|&condition| {
        has(mask.into(), condition) && condition as usize >= conditions
    });
    match undeclared {
        Some(condition) => Err(Rule::DeclaredCondition.at(place, condition.into())),
        None => Ok(()),
    }
}

impl<'l, L: Lattice> SheetReader<'l, L> {
    // Reads a permit with its two trees into the table.
    pub(crate) fn read_permit<'a>(&mut self, item: Placed<'a>) -> Result<Cursor<'a>, Refusal>
        ensures same { self.new.lattice ≡ self.old.lattice }
        ensures forward { IfOk result (λ p. Forward item.entry p) }
        ensures answer { item.entry.record.letter ≡ 82 → ItemAnswered (L.Lattice.lattice self.old.lattice.now) self.old.table self.new.table item.entry result }
    {
        let number = self.table.permits;
        let conditions = item.numbered(number, 8)?;
        check_mask(conditions, self.table.conditions, item.place)?;
        let (from, between) = self.read_tree(item.behind)?;
        let (to, behind) = self.read_tree(between)?;
        self.table.grants[number] = Grant {
            conditions,
            from,
            to,
        };
        self.table.permits = number + 1;
        Ok(behind)
    }
}
