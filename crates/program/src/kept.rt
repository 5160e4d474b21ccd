// An accepted program as it is kept: its instructions, each with what it names and how far it jumps.
ghost use Rattle.std.specs.Prelude.{◌≡◌, ◌≤◌, length};

/// How two values are combined.
#[derive(Clone, Copy, Debug, PartialEq, Eq)]
pub enum Sign {
    Plus,
    Minus,
    Times,
    Less,
    Equal,
}

/// What the program does at one place, and how far it jumps.
#[derive(Clone, Copy, Debug, PartialEq, Eq)]
pub enum Instruction {
    /// Ends a test; also stands where no instruction is kept.
    // First, so that its tag is zero and a program of these alone is one fill of memory.
    End,
    /// Writes a constant.
    Set {
        target: u8,
        value: i32,
    },
    /// Writes what the sign makes of two variables.
    Combine {
        sign: Sign,
        target: u8,
        left: u8,
        right: u8,
    },
    /// Writes one variable's value to another by a permit.
    Release {
        target: u8,
        source: u8,
        permit: u8,
    },
    /// Raises a condition.
    Raise {
        condition: u8,
    },
    /// Goes on behind the `Jump`, `way` places on, where the variable is zero.
    IfVariable {
        variable: u8,
        way: u8,
    },
    /// Goes on behind the `Jump`, `way` places on, where the condition has not come up.
    IfCondition {
        condition: u8,
        way: u8,
    },
    /// Ends the first block of a test: goes on behind the `End`, `way` places on.
    Jump {
        way: u8,
    },
    /// Goes on behind the `Again`, `way` places on, where the variable is zero.
    Loop {
        variable: u8,
        way: u8,
    },
    /// Ends a loop: goes on behind its `Loop`, `way` places back, unless the variable is zero.
    Again {
        variable: u8,
        way: u8,
    },
}

/// A kept program: its first `count` instructions.
// A count beside an array, and distances for blocks: no heap, so the instructions have fixed room.
#[derive(Clone, Copy)]
pub struct Program {
    pub count: usize,
    pub instructions: [Instruction; 256],
    ghost full: { length instructions ≡ 256 },
    ghost within: { count ≤ 256 },
}
