// Images of a store.
ghost use Rattle.std.specs.Prelude.{◌≡◌, ◌≤◌, length, take};

/// The room for an image of either store.
pub const IMAGE_ROOM: usize = 320;

/// The bytes of an image, at the front of a buffer.
// A size beside a buffer: no heap in the box, so the buffer has fixed room.
#[derive(Clone, Copy, Debug, PartialEq)]
pub struct ImageBytes {
    pub size: usize,
    pub buffer: [u8; IMAGE_ROOM],
    ghost within: { (length buffer ≡ 320) × (size ≤ 320) },
}

impl ImageBytes {
    /// The image alone.
    pub fn bytes(&self) -> &[u8]
        ensures { result.now ≡ take self.now.size self.now.buffer }
    {
        &self.buffer[..self.size]
    }
}
