// Levels in a row, each below the next.
ghost use Rattle.lattice.specs.Chain.{chain};
ghost use Rattle.std.proofs.Common.{rules};

use crate::Lattice;

/// The levels 0 to `top`, ordered as numbers.
#[derive(Clone, Copy, Debug, PartialEq, Eq)]
pub struct Chain {
    pub top: u8,
}

const BOTTOM: u32 = 0;

impl Lattice for Chain {
    ghost lattice = { λ l. chain l.top };

    ghost lawful = { Prim.search rules };

    fn known(&self, code: u32) -> bool {
        code <= self.highest()
    }

    fn below(&self, a: u32, b: u32) -> bool {
        a <= b && self.known(b)
    }

    fn join(&self, a: u32, b: u32) -> u32 {
        if self.known(a) && self.known(b) {
            a.max(b)
        } else {
            self.highest()
        }
    }

    fn lowest(&self) -> u32 {
        BOTTOM
    }

    fn highest(&self) -> u32 {
        self.top.into()
    }
}
