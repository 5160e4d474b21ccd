// A whole list of calls on a new box.
ghost use Rattle.std.specs.Prelude.{◌≡◌, min, map, length, take, drop};
ghost use Rattle.siteunit.specs.Obeying.{system_of};
ghost use Rattle.stream.specs.Calls.{heard};
ghost use Rattle.session.specs.Promised.{Promised};
ghost use Rattle.session.specs.Sessions.{answers_to, told};

use crate::dispatch::perform;
use lattice::Lattice;
use siteunit::SiteBox;
use store::Store;
use stream::{Answer, Call};

/// Makes calls on a new box, as many as there is room for answers; answers how many. The answers are the machine's, and what the
/// machine promises is promised of them.
pub fn run<L: Lattice + Drop, S: Store>(lattice: L, calls: &[Call], answers: &mut [Answer]) -> usize
    ensures count { result ≡ min (length calls.now) (length answers.old) }
    ensures answers { map told (take result answers.new) ≡ answers_to (system_of (L.Lattice.lattice lattice) S.Store.image) (map (heard 320) (take result calls.now)) }
    ensures rest { drop result answers.new ≡ drop result answers.old }
    ensures promises { Promised (L.Lattice.lattice lattice) S.Store.image }
{
    let mut site: SiteBox<L, S> = SiteBox::new(lattice);
    let count = calls.len().min(answers.len());
    // Answers by index: after a `zip` with `iter_mut` the proof no longer knows what `answers` holds.
    for (i, call) in calls[..count].iter().enumerate() {
        answers[i] = perform(&mut site, call).unwrap_or_else(Answer::from);
    }
    count
}
