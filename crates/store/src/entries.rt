// How entries go into a list of them, and out of it. Apart from the store, since what it keeps does not hold in between.
ghost use Rattle.std.specs.Prelude.{◌≡◌, ◌+◌, ◌-◌, ◌<◌, ◌≤◌, ◌∷◌, ◌++◌, length, take, drop};
ghost use Rattle.std.specs.List.{between};
ghost use Rattle.store.specs.Entries.{unused};
ghost use Rattle.store.specs.Positions.{before};

use crate::entry::Entry;

// How many entries stand before the first whose place is not below this one.
pub(crate) fn count_below(entries: &[Entry], place: u8) -> usize
    ensures { result ≡ before place entries.now }
{
    entries
        .iter()
        .take_while(|entry| entry.place < place)
        .count()
}

// Puts an entry at a position, moving the used entries from there on up by one.
pub(crate) fn insert(entries: &mut [Entry], used: usize, at: usize, new: Entry)
    requires { (at ≤ used) × (used < length entries.old) }
    ensures { entries.new ≡ take at entries.old ++ (new ∷ (between at used entries.old ++ drop (used + 1) entries.old)) }
{
    entries.copy_within(at..used, at + 1);
    entries[at] = new;
}

// Takes the entry at a position out, moving the used entries behind it down by one.
pub(crate) fn remove(entries: &mut [Entry], used: usize, at: usize)
    requires { (at < used) × (used ≤ length entries.old) }
    ensures { entries.new ≡ take at entries.old ++ (between (at + 1) used entries.old ++ (unused ∷ drop used entries.old)) }
{
    entries.copy_within(at + 1..used, at);
    entries[used - 1] = Entry::UNUSED;
}
