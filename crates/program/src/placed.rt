// Blocks and records where they stand.
ghost use Rattle.std.specs.Prelude.{◌≡◌, ◌+◌, ◌*◌, ◌≤◌, length};

use crate::context::Context;
use crate::innermost::{Innermost, RecordKind};
use records::{Cursor, Record};

// Where records stand: how many blocks are open, the innermost of them, and the context inside it.
#[derive(Clone, Copy)]
pub(crate) struct Block {
    pub(crate) opened: usize,
    pub(crate) innermost: Option<Innermost>,
    pub(crate) inside: Context,
}

// A record and its place.
#[derive(Clone, Copy)]
pub(crate) struct Line {
    pub(crate) first: Record,
    pub(crate) place: usize,
}

// A command's record: what it is, where it stands, how many blocks are open there, and the cursor behind it.
#[derive(Clone, Copy)]
pub(crate) struct Placed<'a> {
    pub(crate) kind: RecordKind,
    pub(crate) line: Line,
    pub(crate) opened: usize,
    pub(crate) behind: Cursor<'a>,
    ghost next: { behind.place ≡ line.place + 1 },
    ghost room: { 8 * behind.place + length behind.left.now ≤ 2048 },
    ghost nested: { opened ≤ line.place },
}
