// Streams of calls on new boxes.
ghost use Rattle.std.specs.Prelude.{◌≡◌, min, map, length, take, drop};
ghost use Rattle.session.specs.Sessions.{answers_to, told};
ghost use Rattle.stream.specs.Calls.{heard};
ghost use Rattle.bundle.specs.Settings.{system_for};

use crate::streams::{Kind, Order, Setting};
use lattice::{Chain, ReaderSets};
use session::run;
use store::{DenseStore, SparseStore, Store};
use stream::{Answer, Call};

/// Makes calls on a new box in this setting, as many as there is room for answers; answers how many.
pub fn play(setting: Setting, calls: &[Call], answers: &mut [Answer]) -> usize
    ensures count { result ≡ min (length calls.now) (length answers.old) }
    ensures answers { map told (take result answers.new) ≡ answers_to (system_for setting) (map (heard 320) (take result calls.now)) }
    ensures rest { drop result answers.new ≡ drop result answers.old }
{
    match (setting.order, setting.kind) {
        (Order::Chain(top), Kind::Dense) => run::<_, DenseStore>(Chain { top }, calls, answers),
        (Order::Chain(top), Kind::Sparse) => run::<_, SparseStore>(Chain { top }, calls, answers),
        (Order::Readers, Kind::Dense) => run::<_, DenseStore>(ReaderSets, calls, answers),
        (Order::Readers, Kind::Sparse) => run::<_, SparseStore>(ReaderSets, calls, answers),
    }
}
