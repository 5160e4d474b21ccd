// The reader of sheets.
ghost use Rattle.std.specs.Result.{MatchResult};
ghost use Rattle.sheet.specs.Reader.{SheetRead, SheetRefused};

use crate::placed::Placed;
use crate::rows::SheetTable;
use lattice::Lattice;
use records::{Cursor, Refusal, Rule};

/// The most bytes that a sheet may have.
pub const SHEET_BYTES: usize = 4096;

// A sheet being read: the lattice of its levels, and the table of the items so far.
#[derive(Drop)]
pub(crate) struct SheetReader<'l, L> {
    pub(crate) lattice: &'l L,
    pub(crate) table: SheetTable,
}

/// Reads a sheet, rules 2 to 9: the tables of the sheet, or the first rule that it breaks.
pub fn read_sheet<L: Lattice>(lattice: &L, bytes: &[u8]) -> Result<SheetTable, Refusal>
    ensures { MatchResult result
        (λ t. SheetRead (L.Lattice.lattice lattice.now) bytes.now t)
        (λ e. SheetRefused (L.Lattice.lattice lattice.now) bytes.now e) }
{
    if bytes.len() % 8 != 0 || bytes.len() > SHEET_BYTES {
        return Err(Rule::SheetLength.into());
    }
    let mut reader = SheetReader {
        lattice,
        table: SheetTable::new(),
    };
    let mut cursor = Cursor::new(bytes);
    // No iterator: how far an item goes is known once it is read.
    while let Some(item) = Placed::at(cursor) {
        cursor = reader.read_item(item)?;
    }
    Ok(reader.table)
}
