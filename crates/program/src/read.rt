// The checker of programs.
ghost use Rattle.std.specs.Result.{MatchResult};
ghost use Rattle.program.specs.Loading.{ProgramRead, ProgramRefused};

use crate::checker::Checker;
use crate::context::Context;
use crate::kept::{Instruction, Program};
use crate::placed::Block;
use flow::FlowMasks;
use records::{Cursor, Refusal, Rule};

/// The most bytes that a program may have.
pub const PROGRAM_BYTES: usize = 2048;

/// Checks a program against a sheet's masks, rules 11 to 18: the program as it is kept, or the first rule that it breaks.
pub fn read_program(masks: &FlowMasks, bytes: &[u8]) -> Result<Program, Refusal>
    ensures { MatchResult result
        (λ p. ProgramRead masks.now bytes.now p)
        (λ e. ProgramRefused masks.now bytes.now e) }
{
    if bytes.len() % 8 != 0 || bytes.len() > PROGRAM_BYTES {
        return Err(Rule::ProgramLength.at(0, 0));
    }
    let inside = Context::default();
    let mut checker = Checker {
        context: inside,
        masks,
        instructions: [Instruction::End; 256],
    };
    let outermost = Block {
        opened: 0,
        innermost: None,
        inside,
    };
    let end = checker.check_block(Cursor::new(bytes), outermost)?;
    Ok(Program {
        count: end.place,
        instructions: checker.instructions,
    })
}
