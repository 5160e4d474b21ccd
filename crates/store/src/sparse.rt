// A store that keeps the values that are not zero.
ghost use Rattle.std.specs.Prelude.{◌≡◌, ◌<◌, ◌≤◌, true, length, take, MatchResult};
ghost use Rattle.std.proofs.Common.{arith};
ghost use Rattle.store.specs.Entries.{values_of, ascend_from};
ghost use Rattle.store.specs.Kept.{Kept, kept_prop};
ghost use Rattle.store.specs.Examples.{example_values, example_image};
ghost use Rattle.store.specs.Images.{sparse_image};
ghost use Rattle.store.specs.Positions.{position_of};
ghost use Rattle.store.specs.NormalForm.{length_values};
ghost use Rattle.std.proofs.Math.Bool.{Bool-set};
ghost use mathlib.Core.HLevel.{is_prop→PathP};
ghost use Rattle.store.specs.Ascending.{same_entries, same_used};
ghost use Rattle.store.specs.ImagesLemmas.{length_sparse};

use crate::entries::{count_below, insert, remove};
use crate::entry::Entry;
use crate::{PLACES, Store};

// Up to this entry, counting from the front takes fewer steps than a search by halves.
const NEAR: usize = 24;

/// The sparse store: an entry for each value that is not zero, in the order of the places, and then unused entries.
#[derive(Drop)]
pub struct SparseStore {
    // An array and a count: no heap, and the image shows unused entries too, so each has a fixed content.
    entries: [Entry; PLACES],
    used: usize,
    ghost kept: { Kept entries used } by { kept_prop entries used },
    ghost ordered: { ascend_from 0 (take used entries) ≡ true },
}

impl SparseStore {
    // Where the entry of a place stands, or where it would belong.
    fn find(&self, place: u8) -> Result<usize, usize>
        requires { place < 64 }
        ensures place { result ≡ position_of self.now.entries place }
        ensures room { MatchResult result (λ at. at < self.now.used) (λ at. (at ≤ self.now.used) × (self.now.used < 64)) }
    {
        // An unused entry is above every place, so few used ones are counted too.
        if self.entries[NEAR].place < place {
            return self.entries[..self.used].binary_search_by_key(&place, |entry| entry.place);
        }
        let at = count_below(&self.entries, place);
        if self.entries[at].place == place {
            Ok(at)
        } else {
            Err(at)
        }
    }
}

impl Store for SparseStore {
    ghost values = { λ s. values_of s.entries };

    ghost image = { sparse_image };

    ghost long = { λ s. length_values s.entries };

    // Equal values give a path through entries and count, and what they keep has one proof at most.
    ghost same = { λ s t e i.
        let p = same_entries s.kept s.ordered t.kept t.ordered e in
        let u = same_used s.kept s.ordered t.kept t.ordered e in
        record {
          entries = p i;
          used = u i;
          kept = is_prop→PathP (λ j. Kept (p j) (u j)) (λ j. kept_prop (p j) (u j)) s.kept t.kept i;
          ordered = is_prop→PathP (λ j. ascend_from 0 (take (u j) (p j)) ≡ true) (λ j. Bool-set (ascend_from 0 (take (u j) (p j))) true) s.ordered t.ordered i;
        } };

    ghost fixed = { λ vs ws v w. omega (arith, length_sparse vs v, length_sparse ws w) };

    fn new() -> SparseStore {
        SparseStore {
            entries: [Entry::UNUSED; PLACES],
            used: 0,
        }
    }

    fn put(&mut self, place: usize, value: i32) -> bool {
        if place >= PLACES {
            return false;
        }
        let entry = Entry {
            place: place as u8,
            value,
        };
        match self.find(entry.place) {
            Ok(at) if value == 0 => {
                remove(&mut self.entries, self.used, at);
                self.used -= 1;
            }
            Ok(at) => self.entries[at] = entry,
            Err(_) if value == 0 => {}
            Err(at) => {
                insert(&mut self.entries, self.used, at, entry);
                self.used += 1;
            }
        }
        true
    }

    fn get(&self, place: usize) -> i32 {
        if place >= PLACES {
            return 0;
        }
        match self.find(place as u8) {
            Ok(at) => self.entries[at].value,
            Err(_) => 0,
        }
    }

    fn image_len(&self) -> usize {
        5 * PLACES
    }

    fn image_byte(&self, at: usize) -> u8 {
        // As in the dense store, but for the size of what stands at a place.
        match self.entries.get(at / 5) {
            Some(entry) => <[u8; 5]>::from(*entry)[at % 5],
            None => 0,
        }
    }
}

/// A worked example: a sparse store after 5 at place 9, -1 at place 2 and 0 at place 9.
pub fn sparse_example() -> SparseStore
    ensures values { values_of result.entries ≡ example_values }
    ensures image { sparse_image example_values ≡ example_image }
{
    let mut store = SparseStore::new();
    store.put(9, 5);
    store.put(2, -1);
    store.put(9, 0);
    store
}
