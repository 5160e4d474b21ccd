// Policy sheets: which variables there are, who may know them and until when, and what may be declassified.
#![tactic(auto)]

mod items;
mod letters;
mod permits;
mod placed;
mod position;
mod read;
mod rows;
mod rules;
mod table;
mod trees;
mod variables;
mod wipers;

pub use read::{SHEET_BYTES, read_sheet};
pub use rows::{Grant, SheetTable, VariableRow};
pub use rules::sheet_examples_hold;
