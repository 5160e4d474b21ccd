// Where a machine keeps its values: 64 signed numbers, and the bytes that stand for them in memory.
#![tactic(auto)]

mod dense;
mod entries;
mod entry;
mod sparse;

ghost use Rattle.std.specs.Prelude.{◌≡◌, ℕ, List, length, replicate, ℤ, pos, nat_lt, slice_index, slice_index_or, slice_set};

pub use dense::DenseStore;
pub use sparse::{SparseStore, sparse_example};

// How many values a store has, at the places from 0 on.
const PLACES: usize = 64;

/// A store of 64 values at the places 0 to 63. Its meaning is the ghost member `values`; each method answers as the
/// meaning does, on every place and value.
pub trait Store: Sized + Drop {
    ghost values: { Self → List ℤ };

    // The bytes that stand for 64 values. It does not see the store, so nothing but the values shows in it.
    ghost image: { List ℤ → List ℕ };

    /// A store of zeros.
    fn new() -> Self
        ensures { values result ≡ replicate 64 (pos 0) };

    /// Puts a value at a place and answers `true`; at place 64 or more it changes nothing and answers `false`.
    // A bool: there is one refusal, and nothing to say of it.
    fn put(&mut self, place: usize, value: i32) -> bool
        ensures values { values self.new ≡ slice_set (values self.old) place value }
        ensures answer { result ≡ nat_lt place 64 };

    /// The value at a place, or 0 at place 64 or more.
    // No Option: a place beyond the store holds what an unused one holds.
    fn get(&self, place: usize) -> i32
        ensures { result ≡ slice_index_or (values self.now) place (pos 0) };

    /// How many bytes the image has.
    fn image_len(&self) -> usize
        ensures { result ≡ length (image (values self.now)) };

    /// The image's byte at a position, or 0 beyond the image.
    // No Option: a box reads as many bytes as `image_len` says.
    fn image_byte(&self, at: usize) -> u8
        ensures { result ≡ slice_index (image (values self.now)) at };

    ghost long: { (s : Self) → length (values s) ≡ 64 };

    // Equal values mean equal contents of every field: a store remembers nothing but its values.
    ghost same: { (s t : Self) → values s ≡ values t → s ≡ t };

    // The image is as long for any values as for any others.
    ghost fixed: { (vs ws : List ℤ) → length vs ≡ 64 → length ws ≡ 64 → length (image vs) ≡ length (image ws) };
}
