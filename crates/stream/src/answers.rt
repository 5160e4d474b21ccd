// The answers to calls.
ghost use Rattle.std.specs.Prelude.{◌≡◌};
ghost use Rattle.stream.specs.declared.answers.Answer.TheVariants.{Refused};

use crate::image::ImageBytes;
use records::Refusal;

/// What a call answers: a number, an image, how a pass ended and the turns that it used, or a refusal.
#[derive(Clone, Copy, Debug, PartialEq)]
pub enum Answer {
    Number(i32),
    Image(ImageBytes),
    // As in the interpreter, on which a stream does not stand.
    Done(u32),
    Spent(u32),
    Refused(Refusal),
}

impl From<Refusal> for Answer {
    ghost from_gives = { λ refusal answer. answer ≡ Refused refusal };

    fn from(refusal: Refusal) -> Answer {
        Answer::Refused(refusal)
    }
}

/// An answer with the count of its call, from 0.
#[derive(Clone, Copy)]
pub struct Line {
    pub count: usize,
    pub answer: Answer,
}
