// Reading streams from a bundle.
ghost use Rattle.std.specs.Prelude.{IfOk};
ghost use Rattle.stream.specs.Segments.{Reads};
ghost use Rattle.decoder.specs.Decoding.{Decoded};
ghost use Rattle.bundle.specs.Bundles.{KindRead, HeadRead, StreamRead, NoStream};
ghost use Rattle.bundle.specs.StreamLengths.{stream_shorter};

use crate::streams::{Kind, Order, Setting, Stream};
use decoder::{Segments, decode};
use records::{Record, next_record};
use std::alloc::{AllocError, Global};
use stream::{Malformed, Segment};

// The most bytes of a stream.
const STREAM_BYTES: usize = 65536;

/// The store that a byte stands for.
impl TryFrom<u8> for Kind {
    type Error = Malformed;

    ghost try_from_gives = { KindRead };

    fn try_from(code: u8) -> Result<Kind, Malformed> {
        match code {
            0 => Ok(Kind::Dense),
            1 => Ok(Kind::Sparse),
            _ => Err(Malformed),
        }
    }
}

/// What a header says of its stream.
impl TryFrom<Record> for Setting {
    type Error = Malformed;

    ghost try_from_gives = { HeadRead };

    fn try_from(head: Record) -> Result<Setting, Malformed> {
        let kind = Kind::try_from(head.b)?;
        // By letter: the format's own.
        let order = match head.letter as char {
            'c' if head.c == 0 => Order::Chain(head.a),
            'r' if head.a == 0 && head.c == 0 => Order::Readers,
            _ => return Err(Malformed),
        };
        Ok(Setting { order, kind })
    }
}

/// The stream at the front of a bundle and the bytes after it, or `None` at the end.
pub fn next_stream(bundle: &[u8]) -> Result<Option<(Stream<'_>, &[u8])>, Malformed>
    ensures { Reads StreamRead NoStream bundle.now result }
{
    if bundle.is_empty() {
        return Ok(None);
    }
    let (head, rest) = next_record(bundle).ok_or(Malformed)?;
    let setting = Setting::try_from(head)?;
    let size = head.n as usize;
    if size > STREAM_BYTES {
        return Err(Malformed);
    }
    let (calls, after) = rest.split_at_checked(size).ok_or(Malformed)?;
    Ok(Some((Stream { setting, calls }, after)))
}

impl<'a> Segment<'a> for Stream<'a> {
    ghost stands = { StreamRead };

    ghost stops = { NoStream };

    ghost shorter = { stream_shorter };

    fn next(input: &'a [u8]) -> Result<Option<(Stream<'a>, &'a [u8])>, Malformed> {
        next_stream(input)
    }
}

/// The streams of a bundle, up to its end or to what is no stream.
pub fn split(heap: Global, bundle: &[u8]) -> Result<Segments<'_, Stream<'_>>, AllocError>
    ensures { IfOk result (λ s. Decoded StreamRead NoStream bundle.now s.items.items s.left.now) }
{
    decode(heap, bundle)
}
