// Where a reader stands in a sheet, and what a record can be there.

// The section that the items so far have reached.
#[derive(Clone, Copy, PartialEq)]
pub(crate) enum Section {
    Conditions,
    Variables,
    Permits,
}

// What an item declares.
#[derive(Clone, Copy)]
pub(crate) enum Item {
    Condition,
    Variable,
    Permit,
}

// What a record of a tree is.
#[derive(Clone, Copy)]
pub(crate) enum Part {
    Leaf,
    Node,
}
