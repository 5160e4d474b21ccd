// A policy's row: its leaves with their guards, and what wipes it.
ghost use Rattle.std.specs.Prelude.{◌≡◌, slice_index_or};
ghost use Rattle.policy.specs.Rows.{no_leaf, blank, levels_in, with_level, with_node};
ghost use Rattle.policy.specs.RowLevels.{LevelOf, FlowDecided};

use crate::mask::condition_bit;
use lattice::Lattice;

/// A leaf of a policy: its level, and as a mask the conditions on whose later side it lies.
#[derive(Clone, Copy, Default)]
pub struct GuardedLevel {
    pub level: u32,
    pub guard: u16,
}

/// A policy as its guarded levels, at most eight, and as a mask the conditions that wipe a variable of it.
// A count beside an array: no heap, so the levels have fixed room.
#[derive(Clone, Copy, Default)]
pub struct Row {
    pub levels: [GuardedLevel; 8],
    pub count: usize,
    pub wipers: u16,
}

impl Row {
    /// A row without levels and wipers.
    pub fn new() -> Row
        ensures { result ≡ blank }
    {
        Row::default()
    }

    /// Adds a leaf; a full row stays as it is.
    pub fn add(&mut self, level: u32, guard: u16)
        ensures { self.new ≡ with_level self.old level guard }
    {
        if self.count < 8 {
            self.levels[self.count] = GuardedLevel { level, guard };
            self.count += 1;
        }
    }

    /// Passes a wiping node: before the first leaf its condition becomes a wiper.
    pub fn pass_node(&mut self, condition: u8)
        ensures { self.new ≡ with_node self.old condition }
    {
        if self.count == 0 {
            self.wipers |= condition_bit(condition);
        }
    }

    /// The level of the first leaf, which is the policy's present level.
    pub fn present_level(&self) -> u32
        ensures { result ≡ (slice_index_or self.now.levels 0 no_leaf).level }
    {
        self.levels[0].level
    }

    // The leaves, eight of them where the count is beyond eight.
    fn leaves(&self) -> &[GuardedLevel]
        ensures { result.now ≡ levels_in self.now }
    {
        let levels: &[GuardedLevel] = &self.levels;
        &levels[..self.count.min(levels.len())]
    }

    /// The level once the conditions of a set have come up: the join of the levels whose guard lies in the set.
    pub fn level_under<L: Lattice>(&self, lattice: &L, set: u16) -> u32
        ensures { LevelOf (L.Lattice.lattice lattice.now) self.now set result }
    {
        let mut level = lattice.lowest();
        for leaf in self.leaves() {
            if leaf.guard & set == leaf.guard {
                level = lattice.join(level, leaf.level);
            }
        }
        level
    }

    /// Whether, whatever comes up, the level of this row is below that of the other; never where a level of it is unknown.
    pub fn flows_to<L: Lattice>(&self, lattice: &L, other: &Row) -> bool
        ensures { FlowDecided (L.Lattice.lattice lattice.now) self.now other.now result }
    {
        for leaf in self.leaves() {
            if !lattice.below(leaf.level, other.level_under(lattice, leaf.guard)) {
                return false;
            }
        }
        true
    }
}
