// What a sparse store keeps of one value.
ghost use Rattle.std.specs.Prelude.{◌≡◌};
ghost use Rattle.store.specs.Images.{entry_bytes};

/// A value and its place; or no value, at a place that no store has.
#[derive(Clone, Copy)]
pub(crate) struct Entry {
    pub(crate) place: u8,
    pub(crate) value: i32,
}

impl Entry {
    // Keeps no value, at a place that no store has: what the image shows of it is fixed, so it is no default.
    pub(crate) const UNUSED: Entry = Entry {
        place: 255,
        value: 0,
    };
}

// The place, and then the value, most significant byte first.
impl From<Entry> for [u8; 5] {
    ghost from_gives = { λ entry bytes. bytes ≡ entry_bytes entry };

    fn from(entry: Entry) -> [u8; 5] {
        let [a, b, c, d] = entry.value.to_be_bytes();
        [entry.place, a, b, c, d]
    }
}
