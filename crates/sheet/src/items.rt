// The items of a sheet: conditions, variables, permits.
ghost use Rattle.std.specs.Prelude.{◌≡◌, IfOk};
ghost use Rattle.records.specs.Rules.{judged};
ghost use Rattle.sheet.specs.Checks.{condition_rules};
ghost use Rattle.sheet.specs.Forward.{Forward, ItemAnswered};

use crate::letters::item_at;
use crate::placed::Placed;
use crate::position::Item;
use crate::read::SheetReader;
use lattice::Lattice;
use records::{Cursor, Refusal, Rule};

impl<'l, L: Lattice> SheetReader<'l, L> {
    // A condition's level.
    fn check_condition(&self, item: Placed) -> Result<u32, Refusal>
        ensures { let r = item.entry.record in result ≡ judged (condition_rules r item.entry.place self.now.table.conditions ((L.Lattice.lattice self.now.lattice.now).known r.n)) r.n }
    {
        let level = item.numbered(self.table.conditions, 16)?;
        if !self.lattice.known(level) {
            return Err(Rule::KnownLevel.at(item.place, level));
        }
        Ok(level)
    }

    // Reads an item with its trees into the table. Answers the cursor behind it.
    pub(crate) fn read_item<'a>(&mut self, item: Placed<'a>) -> Result<Cursor<'a>, Refusal>
        ensures same { self.new.lattice ≡ self.old.lattice }
        ensures forward { IfOk result (λ p. Forward item.entry p) }
        ensures answer { ItemAnswered (L.Lattice.lattice self.old.lattice.now) self.old.table self.new.table item.entry result }
    {
        match item_at(item.record.letter, self.table.section()) {
            Some(Item::Condition) => {
                let level = self.check_condition(item)?;
                self.table.levels[self.table.conditions] = level;
                self.table.conditions += 1;
                Ok(item.behind)
            }
            Some(Item::Variable) => self.read_variable(item),
            Some(Item::Permit) => self.read_permit(item),
            None => Err(Rule::SheetLetter.at(item.place, 0)),
        }
    }
}
