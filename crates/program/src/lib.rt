// Programs: the commands that a box runs, checked against the sheet before they are kept.
#![tactic(auto)]

mod blocks;
mod checker;
mod checks;
mod context;
mod fields;
mod innermost;
mod instructions;
mod kept;
mod letters;
mod placed;
mod reach;
mod read;
mod rules;

pub use kept::{Instruction, Program, Sign};
pub use read::{PROGRAM_BYTES, read_program};
pub use rules::{program_examples_hold, programs_are_accepted_exactly, readers_are_sound};
