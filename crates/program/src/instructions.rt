// How records are kept.
ghost use Rattle.std.specs.Prelude.{◌≡◌};
ghost use Rattle.program.specs.Keeping.{kept_as};

use crate::innermost::RecordKind;
use crate::kept::Instruction;
use records::Record;

impl Instruction {
    // What a record of this kind does, jumping so far where it opens a block.
    pub(crate) fn of(kind: RecordKind, first: Record, way: u8) -> Instruction
        ensures { result ≡ kept_as kind first way }
    {
        match kind {
            RecordKind::Set => Instruction::Set {
                target: first.a,
                value: first.n.cast_signed(),
            },
            RecordKind::Sign(sign) => Instruction::Combine {
                sign,
                target: first.a,
                left: first.b,
                right: first.c,
            },
            RecordKind::Release => Instruction::Release {
                target: first.a,
                source: first.b,
                permit: first.c,
            },
            RecordKind::Raise => Instruction::Raise { condition: first.a },
            RecordKind::VariableTest => Instruction::IfVariable {
                variable: first.b,
                way,
            },
            RecordKind::ConditionTest => Instruction::IfCondition {
                condition: first.a,
                way,
            },
            RecordKind::Loop => Instruction::Loop {
                variable: first.b,
                way,
            },
            RecordKind::Mark => Instruction::End,
        }
    }
}
