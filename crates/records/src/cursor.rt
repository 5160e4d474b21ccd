// Where a reader stands in a row of records.
ghost use Rattle.std.specs.Prelude.{◌≡◌, ◌+◌, ◌*◌, ◌^◌, ◌<◌, [], ◌∷◌, ◌++◌, length, MatchOption};
ghost use Rattle.records.specs.Records.{bytes as written, records};

use crate::{Record, next_record};

/// The bytes that are left to read, and the place of their first record.
#[derive(Clone, Copy)]
pub struct Cursor<'a> {
    pub place: usize,
    pub left: &'a [u8],
    ghost fits: { 8 * place + length left.now < 2 ^ 64 },
}

impl<'a> Cursor<'a> {
    /// A cursor at the first record.
    pub fn new(bytes: &'a [u8]) -> Cursor<'a>
        ensures place { result.place ≡ 0 }
        ensures left { result.left.now ≡ bytes.now }
    {
        Cursor {
            place: 0,
            left: bytes,
        }
    }

    /// The first record and a cursor behind it, or `None` where fewer than eight bytes are left.
    pub fn split_first(self) -> Option<(Record, Cursor<'a>)>
        ensures { MatchOption result
            (length self.entry.left.now < 8)
            (λ p. (p.1.place ≡ self.entry.place + 1)
            × (length self.entry.left.now ≡ 8 + length p.1.left.now)
            × (records self.entry.left.now ≡ p.0 ∷ records p.1.left.now)
            × (self.entry.left.now ≡ written (p.0 ∷ []) ++ p.1.left.now)) }
    {
        let (first, left) = next_record(self.left)?;
        let place = self.place + 1;
        Some((first, Cursor { place, left }))
    }
}
