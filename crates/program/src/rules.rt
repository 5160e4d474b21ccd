// Which programs the rules accept.
ghost use Rattle.lattice.specs.Lattice.{Lattice, Lawful};
ghost use Rattle.sheet.specs.Sheet.{Sheet};
ghost use Rattle.program.specs.Acceptance.{UsableSheet, AcceptsExactlyTheWellTyped};
ghost use Rattle.program.specs.Deciding.{DecidesFlow};
ghost use Rattle.machine.specs.Promises.{SoundReaders};
ghost use Rattle.program.specs.Examples.{ProgramExamples};
ghost use Rattle.program.specs.Readers.{readers};

/// The rules accept a program's bytes exactly where a well-typed program writes them, over every lattice and every sheet that is
/// accepted on it; and the test that they put decides whether one policy flows to another.
pub fn programs_are_accepted_exactly()
    ensures exactly { (C : Lattice) → Lawful C → (sh : Sheet) → UsableSheet C sh → AcceptsExactlyTheWellTyped C sh }
    ensures decided { (C : Lattice) → Lawful C → DecidesFlow C }
{}

/// What the promises ask of a box's readers: accepted sheets are sound, and programs accepted on them are well-typed.
pub fn readers_are_sound()
    ensures { SoundReaders readers }
{}

/// The worked examples of programs, accepted and refused.
pub fn program_examples_hold()
    ensures { ProgramExamples }
{}
