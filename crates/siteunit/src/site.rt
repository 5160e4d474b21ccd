// The box.
use crate::kept::KeptSheet;
use interpreter::Memory;
use lattice::Lattice;
use program::Program;
use store::Store;

/// A box over a lattice and a store: its memory, and its sheet and its program, once they are accepted.
#[derive(Drop)]
pub struct SiteBox<L: Lattice, S: Store> {
    pub(crate) lattice: L,
    pub(crate) memory: Memory<S>,
    pub(crate) sheet: Option<KeptSheet>,
    pub(crate) program: Option<Program>,
}
