// A sheet as the box keeps it.
ghost use Rattle.std.specs.Prelude.{◌≡◌};
ghost use Rattle.sheet.specs.Sheet.{empty};
ghost use Rattle.sheet.specs.Table.{Represents};
ghost use Rattle.sheet.specs.Letters.{section};

use crate::position::Section;
use crate::rows::SheetTable;

impl SheetTable {
    /// The table of a sheet that declares nothing.
    pub fn new() -> SheetTable
        ensures { Represents result empty }
    {
        SheetTable::default()
    }

    // The section that the items so far have reached.
    pub(crate) fn section(&self) -> Section
        ensures { result ≡ section self.now.variables self.now.permits }
    {
        match (self.variables, self.permits) {
            (0, 0) => Section::Conditions,
            (_, 0) => Section::Variables,
            _ => Section::Permits,
        }
    }
}
