// Blocks and their commands, checked and kept in one pass.
ghost use Rattle.std.specs.Prelude.{◌≡◌, Option, ◌*◌, ◌+◌, ◌≤◌, ◌≢◌, length, IfOk, MatchResult};
ghost use Rattle.records.specs.Records.{records};
ghost use Rattle.program.specs.declared.innermost.Innermost.{Innermost as AnyInnermost};
ghost use Rattle.program.specs.declared.innermost.RecordKind.TheVariants.{Loop as While, Mark};
ghost use Rattle.program.specs.Contexts.{with_variable, inside_of};
ghost use Rattle.program.specs.Rules.{Test};
ghost use Rattle.program.specs.Reading.{Refused, Passed, Branches, BlockRead, end_of};
ghost use Rattle.program.specs.Forward.{Restored, BlockForward, Forward, CommandRead};

use crate::checker::{Checker, Guard};
use crate::context::Context;
use crate::innermost::{Innermost, RecordKind};
use crate::kept::Instruction;
use crate::placed::{Block, Line, Placed};
use policy::condition_bit;
use records::{Cursor, Record, Refusal, Rule};

// The context inside the blocks that a record opens.
fn context_inside(kind: RecordKind, first: Record, context: Context) -> Context
    ensures { result ≡ inside_of kind first context }
{
    match kind {
        RecordKind::VariableTest | RecordKind::Loop => context.with_variable(first.b),
        RecordKind::ConditionTest => context.with_conditions(condition_bit(first.a)),
        _ => context,
    }
}

impl Checker<'_> {
    // Checks the commands of a block at the cursor, up to its end, under the context inside it. Answers the cursor behind the end.
    #[cycle(blocks)]
    pub(crate) fn check_block<'a>(
        &mut self,
        cursor: Cursor<'a>,
        block: Block,
    ) -> Result<Cursor<'a>, Refusal>
        requires { (8 * cursor.place + length cursor.left.now ≤ 2048) × (block.opened ≤ cursor.place) }
        ensures restored { Restored self.old self.new }
        ensures forward { IfOk result (λ p. BlockForward block.innermost cursor.entry p) }
        ensures answer { MatchResult result
            (λ p. BlockRead self.old.masks.now block.inside block.opened block.innermost cursor.entry.place (records cursor.entry.left.now) self.old.instructions self.new.instructions (end_of block.innermost p.place) (records p.left.now))
            (λ e. Refused self.old.masks.now block.inside block.opened block.innermost cursor.entry.place (records cursor.entry.left.now) e) }
    {
        let former = self.context;
        let guard = Guard {
            checker: self,
            former,
        };
        guard.checker.context = block.inside;
        let mut ahead = cursor;
        // No iterator: how far a command goes is known once it is checked.
        while let Some((first, behind)) = ahead.split_first() {
            let line = Line {
                first,
                place: ahead.place,
            };
            match guard.checker.check_record(line, block)? {
                RecordKind::Mark => return Ok(behind),
                kind => {
                    let command = Placed {
                        kind,
                        line,
                        opened: block.opened,
                        behind,
                    };
                    ahead = guard.checker.check_command(command)?;
                }
            }
        }
        match block.innermost {
            None => Ok(ahead),
            Some(_) => Err(Rule::ProgramLetter.at(ahead.place, 0)),
        }
    }

    // Checks the blocks of a command, and keeps it. Answers the cursor behind the command.
    #[cycle(blocks)]
    fn check_command<'a>(&mut self, command: Placed<'a>) -> Result<Cursor<'a>, Refusal>
        ensures restored { Restored self.old self.new }
        ensures forward { IfOk result (λ p. Forward command.entry p) }
        ensures answer { (inner : Option AnyInnermost) → Passed self.old.masks.now self.old.context command.entry.opened inner command.entry.line.place command.entry.line.first command.entry.kind → command.entry.kind ≢ Mark
            → CommandRead self.old inner command.entry self.new.instructions result }
    {
        let inside = context_inside(command.kind, command.line.first, self.context);
        match command.kind {
            RecordKind::VariableTest | RecordKind::ConditionTest => {
                self.check_branch(command, inside)
            }
            RecordKind::Loop => self.check_loop(command, inside),
            kind => {
                self.instructions[command.line.place] = Instruction::of(
                    kind,
                    command.line.first,
                    0,
                );
                Ok(command.behind)
            }
        }
    }

    // Checks and keeps the two blocks of a test.
    #[cycle(blocks)]
    fn check_branch<'a>(&mut self, test: Placed<'a>, inside: Context) -> Result<Cursor<'a>, Refusal>
        ensures restored { Restored self.old self.new }
        ensures forward { IfOk result (λ p. Forward test.entry p) }
        ensures answer { (inner : Option AnyInnermost) (t : Test) → Branches self.old.masks.now self.old.context test.entry.opened inner test.entry.line.place test.entry.line.first test.entry.kind t inside
            → CommandRead self.old inner test.entry self.new.instructions result }
    {
        let then = Block {
            opened: test.opened + 1,
            innermost: Some(Innermost::First),
            inside,
        };
        let second = self.check_block(test.behind, then)?;
        // The second block stands under the test again.
        let otherwise = Block {
            innermost: Some(Innermost::Second),
            ..then
        };
        let behind = self.check_block(second, otherwise)?;
        let (place, middle, end) = (test.line.place, second.place - 1, behind.place - 1);
        self.instructions[place] = Instruction::of(
            test.kind,
            test.line.first,
            (middle - place) as u8,
        );
        self.instructions[middle] = Instruction::Jump {
            way: (end - middle) as u8,
        };
        self.instructions[end] = Instruction::End;
        Ok(behind)
    }

    // Checks and keeps the block of a loop.
    #[cycle(blocks)]
    fn check_loop<'a>(&mut self, head: Placed<'a>, inside: Context) -> Result<Cursor<'a>, Refusal>
        ensures restored { Restored self.old self.new }
        ensures forward { IfOk result (λ p. Forward head.entry p) }
        ensures answer { (inner : Option AnyInnermost) → Passed self.old.masks.now self.old.context head.entry.opened inner head.entry.line.place head.entry.line.first While → inside ≡ with_variable head.entry.line.first.b self.old.context
            → CommandRead self.old inner head.entry self.new.instructions result }
    {
        let block = Block {
            opened: head.opened + 1,
            innermost: Some(Innermost::Loop),
            inside,
        };
        let behind = self.check_block(head.behind, block)?;
        let (place, end) = (head.line.place, behind.place - 1);
        let way = (end - place) as u8;
        let variable = head.line.first.b;
        self.instructions[place] = Instruction::Loop { variable, way };
        self.instructions[end] = Instruction::Again { variable, way };
        Ok(behind)
    }
}
