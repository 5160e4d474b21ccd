// Variables with their trees.
ghost use Rattle.std.specs.Prelude.{◌≡◌, ℕ, ◌≢◌, IfOk, ◌==◌, slice_index_or};
ghost use Rattle.records.specs.Rules.{judged};
ghost use Rattle.sheet.specs.Table.{blank_variable};
ghost use Rattle.sheet.specs.Checks.{variable_rules};
ghost use Rattle.sheet.specs.Forward.{Forward, ItemAnswered};

use crate::placed::Placed;
use crate::read::SheetReader;
use crate::rows::VariableRow;
use lattice::Lattice;
use records::{Cursor, Refusal};

// Whether the outside may feed the variable.
fn check_variable(item: Placed, count: usize) -> Result<bool, Refusal>
    ensures { result ≡ judged (variable_rules item.entry.record item.entry.place count) (item.entry.record.b == 1) }
{
    let record = item.record;
    item.check_zero(record.b <= 1 && record.c == 0 && record.n == 0)?;
    item.check_number(count, 64)?;
    Ok(record.b == 1)
}

impl<'l, L: Lattice> SheetReader<'l, L> {
    // Reads a variable with its tree into its own row.
    pub(crate) fn read_variable<'a>(&mut self, item: Placed<'a>) -> Result<Cursor<'a>, Refusal>
        ensures same { self.new.lattice ≡ self.old.lattice }
        ensures forward { IfOk result (λ p. Forward item.entry p) }
        ensures others { (v : ℕ) → v ≢ self.old.table.variables → slice_index_or self.new.table.rows v blank_variable ≡ slice_index_or self.old.table.rows v blank_variable }
        ensures answer { item.entry.record.letter ≡ 86 → self.old.table.permits ≡ 0 → ItemAnswered (L.Lattice.lattice self.old.lattice.now) self.old.table self.new.table item.entry result }
    {
        let number = self.table.variables;
        let fed = check_variable(item, number)?;
        let (policy, behind) = self.read_tree(item.behind)?;
        self.check_wipers(&policy, item.place)?;
        self.table.rows[number] = VariableRow { policy, fed };
        self.table.variables = number + 1;
        Ok(behind)
    }
}
