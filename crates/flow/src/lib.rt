// What may flow where under a sheet, as masks.
#![tactic(auto)]

mod flows;
mod items;
mod masks;
mod tables;

pub use masks::{FlowMasks, Inflow, PermitFlow, VariableFlow};
pub use tables::flow_masks;
