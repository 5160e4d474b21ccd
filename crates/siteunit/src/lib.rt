// The box: a lattice, a store and the calls on them.
#![tactic(auto)]

mod calls;
mod kept;
mod site;

pub use site::SiteBox;
