// Settings as text.
ghost use Rattle.std.specs.Prelude.{Some};
ghost use Rattle.bundle.specs.Settings.{text};

use crate::streams::{Kind, Order, Setting};
use std::fmt;

/// The lattice and the store, as the second program names them.
impl fmt::Display for Setting {
    ghost output = { λ s. Some (text s) };

    fn fmt<W: fmt::Write>(&self, f: &mut fmt::Formatter<W>) -> fmt::Result {
        let store = match self.kind {
            Kind::Dense => "dense",
            Kind::Sparse => "sparse",
        };
        match self.order {
            Order::Chain(top) => write!(f, "chain:{top} {store}"),
            Order::Readers => write!(f, "readers {store}"),
        }
    }
}
