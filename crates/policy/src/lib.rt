// Erasure policies as rows of guarded levels, and sets of small numbers as masks.
#![tactic(auto)]

mod mask;
mod row;

pub use mask::{condition_bit, has, mask_of};
pub use row::{GuardedLevel, Row};
