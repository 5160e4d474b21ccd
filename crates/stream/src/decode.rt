// Reading calls from a stream.
ghost use Rattle.std.specs.Prelude.{◌≡◌, ◌*◌, ◌<◌, Bool, ◌++◌, length, MatchResult};
ghost use Rattle.stream.specs.Calls.{plain_head, number_head, name_head, short_call, CallRead, NoCall};
ghost use Rattle.stream.specs.CallLengths.{call_shorter};
ghost use Rattle.stream.specs.Segments.{Reads};

use crate::calls::Call;
use crate::segment::{Malformed, Segment};
use records::{Record, next_record};

// No field is named but a and n.
fn is_plain(head: Record) -> bool
    ensures { result ≡ plain_head head }
{
    head.b == 0 && head.c == 0
}

// No field is named but n.
fn names_number(head: Record) -> bool
    ensures { result ≡ number_head head }
{
    head.a == 0 && is_plain(head)
}

// No field is named but a.
fn names_one(head: Record) -> bool
    ensures { result ≡ name_head head }
{
    is_plain(head) && head.n == 0
}

// The call of a record that needs no further bytes.
fn short_call(head: Record) -> Option<Call<'static>>
    ensures { result ≡ short_call head }
{
    let a = head.a;
    let n = head.n;
    // By letter: the format's own.
    match head.letter as char {
        'f' if is_plain(head) => Some(Call::Feed {
            variable: a,
            value: n.cast_signed(),
        }),
        'u' if names_one(head) => Some(Call::Raise { condition: a }),
        'd' if names_one(head) => Some(Call::Lower { condition: a }),
        'p' if names_number(head) => Some(Call::Pass { turns: n }),
        'k' if is_plain(head) => Some(Call::Look {
            level: n,
            variable: a,
        }),
        'q' if is_plain(head) => Some(Call::Ask {
            level: n,
            condition: a,
        }),
        'i' if names_number(head) => Some(Call::Image { level: n }),
        _ => None,
    }
}

// So many records from the front of the input, and what follows them.
fn split_records(input: &[u8], count: u32) -> Result<(&[u8], &[u8]), Malformed>
    ensures { MatchResult result
        (λ p. (input.now ≡ p.0.now ++ p.1.now) × (length p.0.now ≡ 8 * count))
        (λ _. length input.now < 8 * count) }
{
    input.split_at_checked(8 * count as usize).ok_or(Malformed)
}

/// The call at the front of the input and the bytes after it, or `None` at the end.
pub fn next_call(input: &[u8]) -> Result<Option<(Call<'_>, &[u8])>, Malformed>
    ensures { Reads CallRead NoCall input.now result }
{
    if input.is_empty() {
        return Ok(None);
    }
    let (head, rest) = next_record(input).ok_or(Malformed)?;
    // By letter: the format's own.
    match head.letter as char {
        'h' if names_number(head) => {
            let (sheet, after) = split_records(rest, head.n)?;
            Ok(Some((Call::Sheet(sheet), after)))
        }
        'l' if names_number(head) => {
            let (program, after) = split_records(rest, head.n)?;
            Ok(Some((Call::Load(program), after)))
        }
        _ => {
            let call = short_call(head).ok_or(Malformed)?;
            Ok(Some((call, rest)))
        }
    }
}

impl<'a> Segment<'a> for Call<'a> {
    ghost stands = { CallRead };

    ghost stops = { NoCall };

    ghost shorter = { call_shorter };

    fn next(input: &'a [u8]) -> Result<Option<(Call<'a>, &'a [u8])>, Malformed> {
        next_call(input)
    }
}
