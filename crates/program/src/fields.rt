// The fields of a record: those that are not named are zero, and what is named is declared.
ghost use Rattle.std.specs.Prelude.{◌≡◌, ◌+◌, [], ◌∷◌, nat_le, nat_lt};
ghost use Rattle.records.specs.Rules.{judged, rule as asked};
ghost use Rattle.program.specs.Checks.{set_fields, three_fields, raise_fields, variable_test_fields, condition_test_fields, mark_fields};

use crate::placed::Line;
use records::{Refusal, Rule};

impl Line {
    // The rest of the fields are zero.
    fn zero(self, rest: bool) -> Result<(), Refusal>
        ensures { result ≡ judged (asked 13 self.place 0 rest ∷ []) tt }
    {
        if !rest {
            return Err(Rule::ProgramFields.at(self.place, 0));
        }
        Ok(())
    }

    // What is named, if so many are declared.
    fn declared(self, name: u8, count: usize) -> Result<u8, Refusal>
        ensures { result ≡ judged (asked 14 self.place name (nat_lt name count) ∷ []) name }
    {
        if name as usize >= count {
            return Err(Rule::Declared.at(self.place, name as u32));
        }
        Ok(name)
    }

    // One more block may open than are open.
    fn one_more(self, opened: usize) -> Result<(), Refusal>
        ensures { result ≡ judged (asked 15 self.place 0 (nat_le (opened + 1) 8) ∷ []) tt }
    {
        if opened >= 8 {
            return Err(Rule::Nesting.at(self.place, 0));
        }
        Ok(())
    }

    // S: its target.
    pub(crate) fn check_set(self, variables: usize) -> Result<u8, Refusal>
        ensures { result ≡ judged (set_fields self.first self.place variables) self.first.a }
    {
        let first = self.first;
        self.zero(first.b == 0 && first.c == 0)?;
        self.declared(first.a, variables)
    }

    // A sign or D: its target. The third thing named is a variable or a permit.
    pub(crate) fn check_three(self, variables: usize, thirds: usize) -> Result<u8, Refusal>
        ensures { result ≡ judged (three_fields self.first self.place variables thirds) self.first.a }
    {
        let first = self.first;
        self.zero(first.n == 0)?;
        let target = self.declared(first.a, variables)?;
        self.declared(first.b, variables)?;
        self.declared(first.c, thirds)?;
        Ok(target)
    }

    // U: its condition.
    pub(crate) fn check_raise(self, conditions: usize) -> Result<u8, Refusal>
        ensures { result ≡ judged (raise_fields self.first self.place conditions) self.first.a }
    {
        let first = self.first;
        self.zero(first.b == 0 && first.c == 0 && first.n == 0)?;
        self.declared(first.a, conditions)
    }

    // I or W, with so many blocks open: the variable tested.
    pub(crate) fn check_variable_test(self, variables: usize, opened: usize) -> Result<u8, Refusal>
        ensures { result ≡ judged (variable_test_fields self.first self.place variables opened) self.first.b }
    {
        let first = self.first;
        self.zero(first.a == 0 && first.c == 0 && first.n == 0)?;
        let variable = self.declared(first.b, variables)?;
        self.one_more(opened)?;
        Ok(variable)
    }

    // Q, with so many blocks open: the condition tested, which stands where a U has its condition.
    pub(crate) fn check_condition_test(
        self,
        conditions: usize,
        opened: usize,
    ) -> Result<u8, Refusal>
        ensures { result ≡ judged (condition_test_fields self.first self.place conditions opened) self.first.a }
    {
        let condition = self.check_raise(conditions)?;
        self.one_more(opened)?;
        Ok(condition)
    }

    // J or K, which names nothing.
    pub(crate) fn check_mark(self) -> Result<(), Refusal>
        ensures { result ≡ judged (mark_fields self.first self.place) tt }
    {
        let first = self.first;
        self.zero(first.a == 0 && first.b == 0 && first.c == 0 && first.n == 0)
    }
}
