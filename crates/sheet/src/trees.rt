// The trees of policies.
ghost use Rattle.std.specs.Prelude.{◌≡◌, [], ◌∷◌, nat_le, IfOk, MatchResult};
ghost use Rattle.records.specs.Records.{records};
ghost use Rattle.records.specs.Rules.{judged, rule};
ghost use Rattle.policy.specs.Rows.{blank};
ghost use Rattle.sheet.specs.Checks.{leaf_rules, node_rules};
ghost use Rattle.sheet.specs.Reading.{TreeRefused, TreeRead};
ghost use Rattle.sheet.specs.Forward.{TreeForward};

use crate::letters::part_at;
use crate::placed::Placed;
use crate::position::Part;
use crate::read::SheetReader;
use lattice::Lattice;
use policy::{Row, condition_bit};
use records::{Cursor, Refusal, Rule};

fn check_depth(place: usize, depth: u8) -> Result<(), Refusal>
    ensures { result ≡ judged (rule 8 place 0 (nat_le depth 4) ∷ []) tt }
{
    if depth > 4 {
        return Err(Rule::TreeDepth.at(place, 0));
    }
    Ok(())
}

impl<'l, L: Lattice> SheetReader<'l, L> {
    // A leaf's level.
    fn check_leaf(&self, leaf: Placed, depth: u8) -> Result<u32, Refusal>
        ensures { let r = leaf.entry.record in result ≡ judged (leaf_rules r leaf.entry.place depth ((L.Lattice.lattice self.now.lattice.now).known r.n)) r.n }
    {
        let record = leaf.record;
        leaf.check_zero(record.a == 0 && record.b == 0 && record.c == 0)?;
        if !self.lattice.known(record.n) {
            return Err(Rule::KnownLevel.at(leaf.place, record.n));
        }
        check_depth(leaf.place, depth)?;
        Ok(record.n)
    }

    // A wiping node's condition.
    fn check_node(&self, node: Placed, depth: u8) -> Result<u8, Refusal>
        ensures { let r = node.entry.record in result ≡ judged (node_rules r node.entry.place depth self.now.table.conditions) r.a }
    {
        let record = node.record;
        node.check_zero(record.b == 0 && record.c == 0 && record.n == 0)?;
        if record.a as usize >= self.table.conditions {
            return Err(Rule::DeclaredCondition.at(node.place, record.a.into()));
        }
        check_depth(node.place, depth)?;
        Ok(record.a)
    }

    // Reads a policy: its tree's row, and the cursor behind the tree.
    pub(crate) fn read_tree<'a>(&self, cursor: Cursor<'a>) -> Result<(Row, Cursor<'a>), Refusal>
        ensures forward { IfOk result (λ p. TreeForward cursor.entry p.1) }
        ensures answer { MatchResult result
            (λ p. TreeRead (L.Lattice.lattice self.now.lattice.now) self.now.table.conditions cursor.entry.place 1 0 (records cursor.entry.left.now) blank p.0 p.1.place (records p.1.left.now))
            (λ e. TreeRefused (L.Lattice.lattice self.now.lattice.now) self.now.table.conditions cursor.entry.place 1 (records cursor.entry.left.now) e) }
    {
        let mut row = Row::new();
        let behind = self.read_part(cursor, 1, 0, &mut row)?;
        Ok((row, behind))
    }

    // Depth, guard and row apart: each changes on its own on the way down, so a struct of them is no plainer.
    // Reads the tree at the cursor, whose root has the given depth. Its leaves go into the row, each with the conditions
    // on whose later side it lies. Answers the cursor behind the tree.
    fn read_part<'a>(
        &self,
        cursor: Cursor<'a>,
        depth: u8,
        guard: u16,
        row: &mut Row,
    ) -> Result<Cursor<'a>, Refusal>
        ensures forward { IfOk result (λ p. TreeForward cursor.entry p) }
        ensures answer { MatchResult result
            (λ p. TreeRead (L.Lattice.lattice self.now.lattice.now) self.now.table.conditions cursor.entry.place depth guard (records cursor.entry.left.now) row.old row.new p.place (records p.left.now))
            (λ e. TreeRefused (L.Lattice.lattice self.now.lattice.now) self.now.table.conditions cursor.entry.place depth (records cursor.entry.left.now) e) }
    {
        let Some(first) = Placed::at(cursor) else {
            return Err(Rule::SheetLetter.at(cursor.place, 0));
        };
        match part_at(first.record.letter) {
            Some(Part::Leaf) => {
                let level = self.check_leaf(first, depth)?;
                row.add(level, guard);
                Ok(first.behind)
            }
            Some(Part::Node) => {
                let condition = self.check_node(first, depth)?;
                row.pass_node(condition);
                let later = self.read_part(first.behind, depth + 1, guard, row)?;
                self.read_part(later, depth + 1, guard | condition_bit(condition), row)
            }
            None => Err(Rule::SheetLetter.at(first.place, 0)),
        }
    }
}
