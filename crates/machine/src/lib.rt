// What a box does, told as a machine: programs, calls and answers; and what is promised of every box.
#![tactic(auto)]

ghost use Rattle.machine.specs.Examples.{MachineExamples};
ghost use Rattle.machine.specs.Laws.{MachineLaws};
ghost use Rattle.machine.specs.Machine.{Readers};
ghost use Rattle.machine.specs.Needed.{RulesAreNeeded};
ghost use Rattle.machine.specs.Promises.{SoundReaders, WipedWhileUp, HiddenCallsLeaveNoTrace, WipedValuesLeaveNoTrace};
ghost use Rattle.machine.specs.Sample.{SampleStands};

/// The three promises: variables are zero while what wipes them is up; and, whatever the readers, if accepted sheets are sound
/// and accepted programs well-typed: hidden calls leave no trace, and wiped values leave none.
pub fn promises_hold() -> u8
    ensures wiped { WipedWhileUp }
    ensures hidden { (R : Readers) → SoundReaders R → HiddenCallsLeaveNoTrace R }
    ensures forgotten { (R : Readers) → SoundReaders R → WipedValuesLeaveNoTrace R }
{
    0
}

/// What the promises ask of lattices and readers can be met: a box that reads a sheet and a program, and runs it.
pub fn hypotheses_can_be_met() -> u8
    ensures { SampleStands }
{
    0
}

/// A loop obeys its law, and a refusal changes nothing.
pub fn machine_laws_hold() -> u8
    ensures { MachineLaws }
{
    0
}

/// The worked examples of the machine.
pub fn machine_examples_hold() -> u8
    ensures { MachineExamples }
{
    0
}

/// Each rule on sheets and programs that the promises rest on is needed: where it is broken, two boxes can be told apart.
pub fn rules_are_needed() -> u8
    ensures { RulesAreNeeded }
{
    0
}
