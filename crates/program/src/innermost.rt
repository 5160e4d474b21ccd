// Where the checker stands in a program, and what a record can be there.
use crate::kept::Sign;

// The innermost open block: the first or the second of a test, or a loop's.
#[derive(Clone, Copy, PartialEq)]
pub(crate) enum Innermost {
    First,
    Second,
    Loop,
}

// What a record is. A mark ends the innermost block.
#[derive(Clone, Copy)]
pub(crate) enum RecordKind {
    Set,
    Sign(Sign),
    Release,
    Raise,
    VariableTest,
    ConditionTest,
    Loop,
    Mark,
}
