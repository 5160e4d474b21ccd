// What a refused call answers.
ghost use Rattle.std.specs.Prelude.{◌≡◌, Some};
ghost use Rattle.records.specs.Refusals.{refusal, refusal_text};

use std::fmt;

/// Which rule is broken, at which record, and by what; place and detail are 0 where the rule names none.
// A rule by number: an answer's line prints it, and `new` takes any.
#[derive(Clone, Copy, Debug, PartialEq, Eq)]
pub struct Refusal {
    pub number: u8,
    pub place: usize,
    pub detail: u32,
}

impl Refusal {
    /// The refusal by the rule of this number.
    pub fn new(number: u8, place: usize, detail: u32) -> Refusal
        ensures { result ≡ refusal number place detail }
    {
        Refusal {
            number,
            place,
            detail,
        }
    }
}

/// Number, place, detail: a blank between two.
impl fmt::Display for Refusal {
    ghost output = { λ e. Some (refusal_text e) };

    fn fmt<W: fmt::Write>(&self, f: &mut fmt::Formatter<W>) -> fmt::Result {
        let number = self.number;
        let place = self.place;
        let detail = self.detail;
        write!(f, "{number} {place} {detail}")
    }
}
