// Lattices of security levels. A level is an unsigned 32-bit code; a lattice says which codes are known, how they are
// ordered, and what their joins are.
#![tactic(auto)]

mod chain;
mod reader_sets;

ghost use Rattle.std.specs.Prelude.{◌≡◌};
ghost use Rattle.lattice.specs.Lattice.{Lattice, Lawful};

pub use chain::Chain;
pub use reader_sets::ReaderSets;

/// A lattice of levels. Its meaning is the ghost member `lattice`; each method answers as the meaning does, on every code.
pub trait Lattice {
    ghost lattice: { Self → Lattice };

    /// Whether the lattice knows this code.
    fn known(&self, code: u32) -> bool
        ensures { result ≡ (lattice self.now).known code };

    /// Whether `a` is below `b`, or equal to it; never where one of them is unknown.
    fn below(&self, a: u32, b: u32) -> bool
        ensures { result ≡ (lattice self.now).below a b };

    /// The least level above both; the highest level where one of them is unknown.
    fn join(&self, a: u32, b: u32) -> u32
        ensures { result ≡ (lattice self.now).join a b };

    /// The level below every known level.
    fn lowest(&self) -> u32
        ensures { result ≡ (lattice self.now).lowest };

    /// The level above every known level.
    fn highest(&self) -> u32
        ensures { result ≡ (lattice self.now).highest };

    ghost lawful: { (l : Self) → Lawful (lattice l) };
}
