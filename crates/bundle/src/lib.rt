// Bundles: many streams of calls in one file, each with the lattice and the store that it is run over.
#![tactic(auto)]

mod outcomes;
mod playing;
mod reading;
mod shown;
mod streams;

pub use outcomes::{note, times};
pub use playing::play;
pub use reading::{next_stream, split};
pub use streams::{Kind, Order, Setting, Stream};
