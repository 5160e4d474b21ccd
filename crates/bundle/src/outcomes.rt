// Which rules refused, and how often.
ghost use Rattle.std.specs.Prelude.{◌≡◌, ◌++◌, map, OnOk};
ghost use Rattle.bundle.specs.Outcomes.{outcome, occurrences};

use std::alloc::AllocError;
use stream::Answer;

// The number of the rule that refused, if one did: by number, as a refusal has it. No From: Option and Answer are of other crates.
fn outcome_of(answer: &Answer) -> Option<u8>
    ensures { result ≡ outcome answer.now }
{
    match *answer {
        Answer::Refused(refusal) => Some(refusal.number),
        _ => None,
    }
}

/// Adds the outcome of each answer: the number of the rule that refused, if one did.
pub fn note(outcomes: &mut Vec<Option<u8>>, answers: &[Answer]) -> Result<(), AllocError>
    ensures { OnOk result (outcomes.new.items ≡ outcomes.old.items ++ map outcome answers.now) }
{
    outcomes.extend(answers.iter().map(outcome_of))
}

/// How often an outcome stands among them.
pub fn times(outcomes: &[Option<u8>], outcome: Option<u8>) -> usize
    ensures { result ≡ occurrences outcome outcomes.now }
{
    // A loop that counts: behind `filter` and `count` each outcome is a branch, and one that is seldom foreseen.
    let mut count = 0;
    for &other in outcomes {
        if other == outcome {
            count += 1;
        }
    }
    count
}
