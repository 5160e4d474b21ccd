// A record where it stands in a sheet.
ghost use Rattle.std.specs.Prelude.{◌≡◌, ◌+◌, ◌<◌, [], ◌∷◌, length, MatchOption, ◌==◌, ◌&&◌, nat_lt};
ghost use Rattle.records.specs.Records.{records};
ghost use Rattle.records.specs.Rules.{judged, rule};
ghost use Rattle.sheet.specs.Checks.{numbered_rules};

use records::{Cursor, Record, Refusal, Rule};

// A record, its place, and the cursor behind it.
#[derive(Clone, Copy)]
pub(crate) struct Placed<'a> {
    pub(crate) record: Record,
    pub(crate) place: usize,
    pub(crate) behind: Cursor<'a>,
    ghost next: { behind.place ≡ place + 1 },
}

impl<'a> Placed<'a> {
    // The record at which the cursor stands, or `None` at the end.
    pub(crate) fn at(cursor: Cursor<'a>) -> Option<Placed<'a>>
        ensures { MatchOption result
            (records cursor.entry.left.now ≡ [])
            (λ p. (p.place ≡ cursor.entry.place)
            × (length p.behind.left.now < length cursor.entry.left.now)
            × (records cursor.entry.left.now ≡ p.record ∷ records p.behind.left.now)) }
    {
        let (record, behind) = cursor.split_first()?;
        Some(Placed {
            record,
            place: cursor.place,
            behind,
        })
    }

    // Refuses where the rest of the record's fields is not zero.
    pub(crate) fn check_zero(self, rest: bool) -> Result<(), Refusal>
        ensures { result ≡ judged (rule 4 self.entry.place 0 rest ∷ []) tt }
    {
        if !rest {
            return Err(Rule::SheetFields.at(self.place, 0));
        }
        Ok(())
    }

    // The record has the next number after so many of its kind, of which there may be so many.
    pub(crate) fn check_number(self, count: usize, limit: usize) -> Result<(), Refusal>
        ensures { result ≡ judged (rule 5 self.entry.place 0 (self.entry.record.a == count && nat_lt self.entry.record.a limit) ∷ []) tt }
    {
        let number = self.record.a as usize;
        if number != count || number >= limit {
            return Err(Rule::NextNumber.at(self.place, 0));
        }
        Ok(())
    }

    // The named field of a condition or a permit, which has the next number after so many of its kind.
    pub(crate) fn numbered(self, count: usize, limit: usize) -> Result<u32, Refusal>
        ensures { result ≡ judged (numbered_rules self.entry.record self.entry.place count limit) self.entry.record.n }
    {
        let record = self.record;
        self.check_zero(record.b == 0 && record.c == 0)?;
        self.check_number(count, limit)?;
        Ok(record.n)
    }
}
