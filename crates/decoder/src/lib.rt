// All segments of a row of bytes: the calls of a stream, the streams of a bundle.
#![tactic(auto)]

ghost use Rattle.std.specs.Prelude.{◌≡◌, [], IsTrue, ◌↔◌, IfOk};
ghost use Rattle.decoder.specs.Decoding.{Decoded};

use std::alloc::{AllocError, Global};
use stream::Segment;

/// Segments that stand one after another, and the bytes behind the last.
#[derive(Drop)]
pub struct Segments<'a, T> {
    pub items: Vec<T>,
    pub left: &'a [u8],
}

impl<'a, T> Segments<'a, T> {
    /// Whether nothing is left behind the segments.
    pub fn ended(&self) -> bool
        ensures { IsTrue result ↔ (self.now.left.now ≡ []) }
    {
        self.left.is_empty()
    }
}

/// The segments of a row of bytes, up to its end or to what is no segment.
pub fn decode<'a, T: Segment<'a>>(
    heap: Global,
    bytes: &'a [u8],
) -> Result<Segments<'a, T>, AllocError>
    ensures { IfOk result (λ s. Decoded T.stands T.stops bytes.now s.items.items s.left.now) }
{
    let mut items = Vec::new(heap);
    let mut left = bytes;
    // No iterator: what is left behind the last segment is answered too.
    while let Ok(Some((segment, rest))) = T::next(left) {
        items.push(segment)?;
        left = rest;
    }
    Ok(Segments { items, left })
}
