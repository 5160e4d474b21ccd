// Worked examples of the rules.
ghost use Rattle.sheet.specs.Examples.{SheetExamples};

/// The worked examples of sheets: accepted, refused by each rule, and by the first of two that are broken at once.
pub fn sheet_examples_hold()
    ensures { SheetExamples }
{}
