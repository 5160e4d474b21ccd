// Runs an accepted program on a store, under the sheet's wipers and permits.
#![tactic(auto)]

mod interpret;
mod memory;

pub use interpret::Ending;
pub use memory::Memory;
