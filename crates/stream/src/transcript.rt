// All answers to the calls of a stream, as text.
ghost use Rattle.std.specs.Prelude.{◌≡◌, Some};
ghost use Rattle.std.specs.Iterator.{YieldsFirst, item_count};
ghost use Rattle.stream.specs.Lines.{lines_text, transcript_text};
ghost use Rattle.stream.specs.Remaining.{lines_left};

use crate::answers::{Answer, Line};
use crate::transcript_line::{Lines, TranscriptLine};
use std::fmt;

/// The answers to the calls of a stream, and whether the stream ended behind the last call.
#[derive(Clone, Copy)]
pub struct Transcript<'a> {
    pub answers: &'a [Answer],
    pub ended: bool,
}

impl<'a> Transcript<'a> {
    /// Its lines, one after another: a program that prints each by itself keeps it whole where another writes to the same file.
    pub fn lines(self) -> Lines<'a>
        ensures { lines_text (lines_left result) ≡ transcript_text self.entry }
    {
        Lines {
            count: 0,
            answers: self.answers,
            ended: self.ended,
        }
    }
}

/// A line for each answer, and `stop` where the stream did not end.
impl fmt::Display for Transcript<'_> {
    ghost output = { λ t. Some (transcript_text t) };

    fn fmt<W: fmt::Write>(&self, f: &mut fmt::Formatter<W>) -> fmt::Result {
        for (count, &answer) in self.answers.iter().enumerate() {
            let line = Line { count, answer };
            writeln!(f, "{line}")?;
        }
        if self.ended {
            return Ok(());
        }
        writeln!(f, "stop")
    }
}

impl Iterator for Lines<'_> {
    type Item = TranscriptLine;

    ghost next_gives = { YieldsFirst lines_left };

    ghost remaining = { item_count lines_left };

    fn next(&mut self) -> Option<TranscriptLine> {
        if let Some((&answer, rest)) = self.answers.split_first() {
            let count = self.count;
            self.count += 1;
            self.answers = rest;
            return Some(TranscriptLine::Answer(Line { count, answer }));
        }
        if !self.ended {
            self.ended = true;
            return Some(TranscriptLine::Stop);
        }
        None
    }
}
