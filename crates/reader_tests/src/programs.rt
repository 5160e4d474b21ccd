use crate::draft::{self, Draft};
use lattice::Chain;
use records::{Refusal, Rule};
use siteunit::SiteBox;
use std::alloc::{AllocError, Global};
use std::process::Abort;
use std::test::Fail;
use store::DenseStore;

// The record between the two blocks of a test, and the record that closes a test or a loop.
const ELSE: [u8; 8] = [b'J', 0, 0, 0, 0, 0, 0, 0];

const END: [u8; 8] = [b'K', 0, 0, 0, 0, 0, 0, 0];

// A command with up to three numbers.
fn command(letter: u8, a: u8, b: u8, c: u8) -> [u8; 8] {
    [letter, a, b, c, 0, 0, 0, 0]
}

fn set(variable: u8, value: u8) -> [u8; 8] {
    [b'S', variable, 0, 0, 0, 0, 0, value]
}

impl Draft {
    // Level 1, and 3 once condition 0 has come up.
    fn transient(&mut self) -> Result<(), AllocError> {
        self.erase(0)?;
        self.leaf(1)?;
        self.leaf(3)
    }
}

// Condition 0 at level 0; variable 0 is transient and fed; variable 1 is at level 0, variable 2 transient, variable 3 at level 1.
fn sheet(heap: Global) -> Result<Draft, AllocError> {
    let mut draft = Draft::new(heap);
    draft.condition(0, 0)?;
    draft.variable(0, 1)?;
    draft.transient()?;
    draft.variable(1, 0)?;
    draft.leaf(0)?;
    draft.variable(2, 0)?;
    draft.transient()?;
    draft.variable(3, 0)?;
    draft.leaf(1)?;
    Ok(draft)
}

// A sheet with a permit from transient to level 1: its conditions, the level of condition 1, and the levels of source and target; a
// source without a level is transient.
#[derive(Clone, Copy)]
struct Permitting {
    conditions: u32,
    level: u32,
    source: Option<u32>,
    target: u32,
}

impl Permitting {
    fn sheet(self, heap: Global) -> Result<Draft, AllocError> {
        let mut draft = Draft::new(heap);
        draft.condition(0, 0)?;
        draft.condition(1, self.level)?;
        draft.variable(0, 1)?;
        match self.source {
            Some(level) => draft.leaf(level)?,
            None => draft.transient()?,
        }
        draft.variable(1, 0)?;
        draft.leaf(self.target)?;
        draft.permit(0, self.conditions)?;
        draft.transient()?;
        draft.leaf(1)?;
        Ok(draft)
    }
}

fn site(sheet: &Draft) -> Result<SiteBox<Chain, DenseStore>, Fail> {
    let mut site = SiteBox::new(Chain { top: 3 });
    site.sheet(sheet.bytes.as_slice())?;
    Ok(site)
}

fn accepted(rt: &impl Abort, sheet: &Draft, program: &[[u8; 8]], count: u16) -> Result<(), Fail> {
    assert_eq!(rt; site(sheet)?.load(program.as_flattened()), Ok(count));
    Ok(())
}

fn refused(
    rt: &impl Abort,
    sheet: &Draft,
    program: &[[u8; 8]],
    refusal: Refusal,
) -> Result<(), Fail> {
    draft::refused(rt, site(sheet)?.load(program.as_flattened()), refusal)
}

#[test]
fn the_length_is_whole_records_and_at_most_2048(rt: HostRuntime) -> Result<(), Fail> {
    let sheet = sheet(rt.alloc())?;
    let too_long = Rule::ProgramLength.at(0, 0);
    accepted(&rt, &sheet, &[], 0)?;
    accepted(&rt, &sheet, &[set(1, 7); 256], 256)?;
    refused(&rt, &sheet, &[set(1, 7); 257], too_long)?;
    assert_eq!(rt; site(&sheet)?.load(&[b'S']), Err(too_long));
    Ok(())
}

#[test]
fn blocks_open_and_close_in_their_order(rt: HostRuntime) -> Result<(), Fail> {
    let sheet = sheet(rt.alloc())?;
    let test = command(b'I', 0, 1, 0);
    let repeat = command(b'W', 0, 1, 0);
    refused(&rt, &sheet, &[ELSE], Rule::ProgramLetter.at(0, 0))?;
    refused(&rt, &sheet, &[test, ELSE], Rule::ProgramLetter.at(2, 0))?;
    accepted(&rt, &sheet, &[test, ELSE, END], 3)?;
    refused(
        &rt,
        &sheet,
        &[test, ELSE, END, END],
        Rule::ProgramLetter.at(3, 0),
    )?;
    refused(&rt, &sheet, &[repeat, ELSE], Rule::ProgramLetter.at(1, 0))
}

#[test]
fn fields_and_names(rt: HostRuntime) -> Result<(), Fail> {
    let sheet = sheet(rt.alloc())?;
    let set = command(b'S', 1, 1, 0);
    let sum = command(b'+', 2, 0, 7);
    let release = command(b'D', 1, 0, 5);
    let raise = command(b'U', 1, 0, 0);
    refused(&rt, &sheet, &[set], Rule::ProgramFields.at(0, 0))?;
    refused(&rt, &sheet, &[sum], Rule::Declared.at(0, 7))?;
    refused(&rt, &sheet, &[release], Rule::Declared.at(0, 5))?;
    refused(&rt, &sheet, &[raise], Rule::Declared.at(0, 1))
}

#[test]
fn at_most_eight_blocks_are_open(rt: HostRuntime) -> Result<(), Fail> {
    let sheet = sheet(rt.alloc())?;
    let repeat = command(b'W', 0, 1, 0);
    accepted(&rt, &sheet, [[repeat; 8], [END; 8]].as_flattened(), 16)?;
    let mut deep = [repeat; 9];
    deep[8] = command(b'Q', 0, 0, 0);
    refused(&rt, &sheet, &deep, Rule::Nesting.at(8, 0))
}

#[test]
fn what_reaches_a_target_flows_to_it(rt: HostRuntime) -> Result<(), Fail> {
    let sheet = sheet(rt.alloc())?;
    let copy = command(b'+', 1, 1, 0);
    refused(&rt, &sheet, &[copy], Rule::Reaching.at(0, 0))?;
    let second = [command(b'I', 0, 0, 0), set(2, 1), ELSE, set(1, 1), END];
    refused(&rt, &sheet, &second, Rule::Reaching.at(3, 0))?;
    let raise = [command(b'I', 0, 3, 0), command(b'U', 0, 0, 0), ELSE, END];
    refused(&rt, &sheet, &raise, Rule::Reaching.at(1, 3))
}

#[test]
fn loops_stand_at_the_lowest_level(rt: HostRuntime) -> Result<(), Fail> {
    let repeat = [command(b'W', 0, 3, 0), END];
    refused(&rt, &sheet(rt.alloc())?, &repeat, Rule::LoopLowest.at(0, 3))?;
    let high = Permitting {
        conditions: 0,
        level: 2,
        source: None,
        target: 0,
    };
    let steered = [command(b'Q', 1, 0, 0), command(b'W', 0, 1, 0)];
    refused(
        &rt,
        &high.sheet(rt.alloc())?,
        &steered,
        Rule::LoopLowest.at(1, 257),
    )
}

#[test]
fn releases_keep_to_their_permit(rt: HostRuntime) -> Result<(), Fail> {
    let release = [command(b'D', 1, 0, 0)];
    let open = Permitting {
        conditions: 2,
        level: 1,
        source: None,
        target: 1,
    };
    accepted(&rt, &open.sheet(rt.alloc())?, &release, 1)?;
    let asks_too_high = Permitting { level: 2, ..open };
    refused(
        &rt,
        &asks_too_high.sheet(rt.alloc())?,
        &release,
        Rule::Reaching.at(0, 257),
    )?;
    let to_the_lowest = Permitting {
        conditions: 0,
        level: 0,
        source: None,
        target: 0,
    };
    refused(
        &rt,
        &to_the_lowest.sheet(rt.alloc())?,
        &release,
        Rule::Reaching.at(0, 512),
    )?;
    let from_the_highest = Permitting {
        conditions: 0,
        level: 0,
        source: Some(3),
        target: 1,
    };
    refused(
        &rt,
        &from_the_highest.sheet(rt.alloc())?,
        &release,
        Rule::Released.at(0, 0),
    )
}

// The first record sets variable 0 of the sheet's level 0, and 255 more count with it.
#[test]
fn all_256_records_run(rt: HostRuntime) -> Result<(), Fail> {
    let mut sheet = Draft::new(rt.alloc());
    for number in 0..2 {
        sheet.variable(number, 0)?;
        sheet.leaf(0)?;
    }
    let mut program = [command(b'+', 1, 1, 0); 256];
    program[0] = set(0, 1);
    let mut site = site(&sheet)?;
    site.load(program.as_flattened())?;
    site.pass(0)?;
    assert_eq!(rt; site.look(0, 1), Ok(255));
    Ok(())
}

// A program branches on a vehicle's tag, which condition 0 wipes, and sets a count in the branch: the count would still tell
// tags apart when they are gone. It is refused, unless the count is wiped too.
#[test]
fn a_count_set_in_a_branch_on_a_tag_is_wiped_with_the_tag(rt: HostRuntime) -> Result<(), Fail> {
    let sheet = sheet(rt.alloc())?;
    let branch = command(b'I', 0, 0, 0);
    let leaking = [branch, set(3, 1), ELSE, END];
    refused(&rt, &sheet, &leaking, Rule::Reaching.at(1, 0))?;
    let repaired = [branch, set(2, 1), ELSE, END];
    accepted(&rt, &sheet, &repaired, 4)
}
