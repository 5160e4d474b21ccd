// The streams of a bundle.

/// The lattice of a stream.
#[derive(Clone, Copy)]
pub enum Order {
    Chain(u8),
    Readers,
}

/// The store of a stream.
#[derive(Clone, Copy)]
pub enum Kind {
    Dense,
    Sparse,
}

/// What a stream is run over.
#[derive(Clone, Copy)]
pub struct Setting {
    pub order: Order,
    pub kind: Kind,
}

/// A stream of calls with its setting.
#[derive(Clone, Copy)]
pub struct Stream<'a> {
    pub setting: Setting,
    pub calls: &'a [u8],
}
