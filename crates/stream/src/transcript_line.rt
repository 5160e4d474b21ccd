// The lines of a transcript, each by itself.
ghost use Rattle.std.specs.Prelude.{◌+◌, ◌<◌, ◌^◌, length, Some};
ghost use Rattle.stream.specs.Lines.{line_text};

use crate::answers::{Answer, Line};
use std::fmt;

/// A line of a transcript: an answer with its count, or that the stream did not end.
#[derive(Clone, Copy)]
pub enum TranscriptLine {
    Answer(Line),
    Stop,
}

/// What the line says, without its end.
impl fmt::Display for TranscriptLine {
    ghost output = { λ l. Some (line_text l) };

    fn fmt<W: fmt::Write>(&self, f: &mut fmt::Formatter<W>) -> fmt::Result {
        match self {
            TranscriptLine::Answer(line) => write!(f, "{line}"),
            TranscriptLine::Stop => f.write_str("stop"),
        }
    }
}

/// The lines of a transcript that are left.
#[derive(Drop)]
pub struct Lines<'a> {
    pub(crate) count: usize,
    pub(crate) answers: &'a [Answer],
    pub(crate) ended: bool,
    ghost fits: { count + length answers.now < 2 ^ 64 },
}
