// Records of eight bytes, in which sheets, programs and calls are written, and the refusals that their readers give.
#![tactic(auto)]

mod cursor;
mod refusal;
mod rule;

ghost use Rattle.std.specs.Prelude.{◌≡◌, ℕ, ◌+◌, ◌<◌, [], ◌∷◌, ◌++◌, length, MatchOption};
ghost use Rattle.records.specs.Records.{bytes as written, records};

pub use cursor::Cursor;
pub use refusal::Refusal;
pub use rule::Rule;

/// A record: its letter, three bytes and a number of four bytes, most significant first.
// A letter by number: any byte may stand there, and each reader says what kind of record it is.
#[derive(Clone, Copy)]
pub struct Record {
    pub letter: u8,
    pub a: u8,
    pub b: u8,
    pub c: u8,
    pub n: u32,
}

/// The first record and the bytes after it, or `None` where fewer than eight bytes are left.
pub fn next_record(input: &[u8]) -> Option<(Record, &[u8])>
    ensures { MatchOption result
        (length input.now < 8)
        (λ p. (length input.now ≡ 8 + length p.1.now)
        × (records input.now ≡ p.0 ∷ records p.1.now)
        × (input.now ≡ written (p.0 ∷ []) ++ p.1.now)) }
{
    match input {
        [letter, a, b, c, n3, n2, n1, n0, rest @ ..] => {
            let n = u32::from_be_bytes([*n3, *n2, *n1, *n0]);
            let first = Record {
                letter: *letter,
                a: *a,
                b: *b,
                c: *c,
                n,
            };
            Some((first, rest))
        }
        _ => None,
    }
}
