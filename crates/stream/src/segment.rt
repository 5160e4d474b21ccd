// What stands one after another in a row of bytes.
ghost use Rattle.std.specs.Prelude.{ℕ, ◌<◌, List, length};
ghost use Rattle.stream.specs.Segments.{Reads};

/// Bytes that begin with no segment.
#[derive(Clone, Copy, Debug, PartialEq, Eq)]
pub struct Malformed;

/// A part of a row of bytes that can be read from its front: a call of a stream, say, or a stream of a bundle.
pub trait Segment<'a>: Copy {
    // The segment stands in front of the rest.
    ghost stands: { List ℕ → Self → List ℕ → Type 0 };

    // There is something, and it begins with no segment.
    ghost stops: { List ℕ → Type 0 };

    /// The segment at the front and the bytes after it, or `None` at the end.
    fn next(input: &'a [u8]) -> Result<Option<(Self, &'a [u8])>, Malformed>
        ensures { Reads stands stops input.now result };

    ghost shorter: { (input : List ℕ) (segment : Self) (rest : List ℕ) → stands input segment rest → length rest < length input };
}
