// Levels as sets of the parties that may read.
ghost use Rattle.lattice.specs.ReaderSets.{reader_sets};
ghost use Rattle.lattice.specs.ReaderSetsLaws.{reader_sets_lawful};

use crate::Lattice;

/// The sets of sixteen parties: bit i of a code lets party i read. The more readers, the lower the level.
#[derive(Clone, Copy, Debug, PartialEq, Eq)]
pub struct ReaderSets;

const EVERYBODY: u32 = 65535;

const NOBODY: u32 = 0;

impl Lattice for ReaderSets {
    ghost lattice = { λ _. reader_sets };

    ghost lawful = { λ _. reader_sets_lawful };

    fn known(&self, code: u32) -> bool {
        code <= self.lowest()
    }

    fn below(&self, a: u32, b: u32) -> bool {
        a & b == b && self.known(a)
    }

    fn join(&self, a: u32, b: u32) -> u32 {
        let common = a & b;
        if self.known(a) && self.known(b) {
            common
        } else {
            self.highest()
        }
    }

    fn lowest(&self) -> u32 {
        EVERYBODY
    }

    fn highest(&self) -> u32 {
        NOBODY
    }
}
