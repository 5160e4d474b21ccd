// The rules that a call can break.
ghost use Rattle.std.specs.Prelude.{◌≡◌};
ghost use Rattle.records.specs.Refusals.{refusal, number};

use crate::refusal::Refusal;

/// A rule, by its number. docs/RULES.md says what each asks.
#[derive(Clone, Copy, Debug, PartialEq, Eq)]
pub enum Rule {
    NoSheetYet = 1,
    SheetLength = 2,
    SheetLetter = 3,
    SheetFields = 4,
    NextNumber = 5,
    KnownLevel = 6,
    DeclaredCondition = 7,
    TreeDepth = 8,
    WipersBelow = 9,
    NeedsSheet = 10,
    ProgramLength = 11,
    ProgramLetter = 12,
    ProgramFields = 13,
    Declared = 14,
    Nesting = 15,
    Reaching = 16,
    LoopLowest = 17,
    Released = 18,
    MayBeFed = 19,
    NotWiped = 20,
    IsCondition = 21,
    NeedsProgram = 22,
    IsLevel = 23,
    IsVariable = 24,
    MayKnow = 25,
    RoomForImage = 26,
}

impl Rule {
    /// The refusal by this rule, asked of the record at a place.
    pub fn at(self, place: usize, detail: u32) -> Refusal
        ensures { result ≡ refusal (number self) place detail }
    {
        Refusal::new(self as u8, place, detail)
    }
}

/// The refusal by a rule that names no place and no detail.
impl From<Rule> for Refusal {
    ghost from_gives = { λ rule e. e ≡ refusal (number rule) 0 0 };

    fn from(rule: Rule) -> Refusal {
        rule.at(0, 0)
    }
}
