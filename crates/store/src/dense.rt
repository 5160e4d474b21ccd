// A store that keeps the values side by side.
ghost use Rattle.std.specs.Prelude.{◌≡◌, length};
ghost use Rattle.store.specs.Images.{dense_image};
ghost use mathlib.Core.HLevel.{is_prop→PathP};
ghost use Rattle.std.proofs.Math.Nat.{ℕ_set};
ghost use Rattle.std.proofs.Common.{arith};
ghost use Rattle.store.specs.ImagesLemmas.{length_dense};

use crate::{PLACES, Store};

/// The dense store: the 64 values in order.
#[derive(Drop)]
pub struct DenseStore {
    cells: [i32; PLACES],
    ghost full: { length cells ≡ 64 },
}

impl Store for DenseStore {
    ghost values = { λ s. s.cells };

    ghost image = { dense_image };

    ghost long = { λ s. s.full };

    // A path between two stores goes through the cells; the ghost field has one proof at most.
    ghost same = { λ s t e i. record {
      cells = e i;
      full = is_prop→PathP (λ j. length (e j) ≡ 64) (λ j. ℕ_set (length (e j)) 64) s.full t.full i;
    } };

    ghost fixed = { λ vs ws v w. omega (arith, length_dense vs, length_dense ws) };

    fn new() -> DenseStore {
        DenseStore { cells: [0; PLACES] }
    }

    fn put(&mut self, place: usize, value: i32) -> bool {
        if place < PLACES {
            self.cells[place] = value;
            true
        } else {
            false
        }
    }

    fn get(&self, place: usize) -> i32 {
        self.cells.get(place).copied().unwrap_or(0)
    }

    fn image_len(&self) -> usize {
        4 * PLACES
    }

    fn image_byte(&self, at: usize) -> u8 {
        // As in the sparse store, but for the size of what stands at a place: three lines are no helper.
        match self.cells.get(at / 4) {
            Some(cell) => cell.to_be_bytes()[at % 4],
            None => 0,
        }
    }
}
