// The tables of a sheet.
use policy::Row;

/// A variable: its policy's row, and whether the outside may feed it.
#[derive(Clone, Copy, Default)]
pub struct VariableRow {
    pub policy: Row,
    pub fed: bool,
}

/// A declassification permit: its conditions as a mask, and the rows of its from-tree and its to-tree.
#[derive(Clone, Copy, Default)]
pub struct Grant {
    pub conditions: u32,
    pub from: Row,
    pub to: Row,
}

/// A sheet as tables: how many conditions, variables and permits it declares, and what it says of each.
// By count and array: no heap, so the tables have fixed room.
#[derive(Clone, Copy, Default)]
pub struct SheetTable {
    pub conditions: usize,
    pub levels: [u32; 16],
    pub variables: usize,
    pub rows: [VariableRow; 64],
    pub permits: usize,
    pub grants: [Grant; 8],
}
