// A session: a whole list of calls on a new box.
#![tactic(auto)]

mod dispatch;
mod runner;

pub use runner::run;
