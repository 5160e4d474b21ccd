use crate::draft::{Draft, refused};
use lattice::{Chain, ReaderSets};
use records::{Refusal, Rule};
use sheet::{SheetTable, read_sheet};
use std::alloc::AllocError;
use std::test::Fail;

impl Draft {
    fn sheet(&self) -> Result<SheetTable, Refusal> {
        read_sheet(&Chain { top: 3 }, self.bytes.as_slice())
    }

    // A tree of two nodes and three leaves.
    fn nested(&mut self) -> Result<(), AllocError> {
        for _ in 0..2 {
            self.erase(0)?;
            self.leaf(0)?;
        }
        self.leaf(0)
    }
}

fn accepted(draft: &Draft) -> Result<(), Fail> {
    draft.sheet()?;
    Ok(())
}

#[test]
fn the_empty_sheet_is_accepted(rt: HostRuntime) -> Result<(), Fail> {
    accepted(&Draft::new(rt.alloc()))
}

#[test]
fn the_length_is_whole_records_and_at_most_4096(rt: HostRuntime) -> Result<(), Fail> {
    let mut draft = Draft::new(rt.alloc());
    for number in 0..16 {
        draft.condition(number, 0)?;
    }
    for number in 0..64 {
        draft.variable(number, 0)?;
        draft.nested()?;
    }
    for number in 0..8 {
        draft.permit(number, 1)?;
        draft.nested()?;
        draft.leaf(0)?;
    }
    assert_eq!(rt; draft.bytes.len(), 3648);
    accepted(&draft)?;
    let mut long = Draft::new(rt.alloc());
    for _ in 0..512 {
        long.leaf(0)?;
    }
    refused(&rt, long.sheet(), Rule::SheetLetter.at(0, 0))?;
    long.leaf(0)?;
    refused(&rt, long.sheet(), Rule::SheetLength.at(0, 0))?;
    let mut odd = Draft::new(rt.alloc());
    odd.bytes.push(b'C')?;
    refused(&rt, odd.sheet(), Rule::SheetLength.at(0, 0))
}

#[test]
fn letters_stand_in_their_order(rt: HostRuntime) -> Result<(), Fail> {
    let mut draft = Draft::new(rt.alloc());
    draft.variable(0, 0)?;
    refused(&rt, draft.sheet(), Rule::SheetLetter.at(1, 0))?;
    draft.leaf(0)?;
    accepted(&draft)?;
    draft.condition(0, 0)?;
    refused(&rt, draft.sheet(), Rule::SheetLetter.at(2, 0))?;
    let mut permit = Draft::new(rt.alloc());
    permit.permit(0, 0)?;
    permit.leaf(0)?;
    refused(&rt, permit.sheet(), Rule::SheetLetter.at(2, 0))?;
    permit.leaf(0)?;
    accepted(&permit)?;
    permit.variable(0, 0)?;
    refused(&rt, permit.sheet(), Rule::SheetLetter.at(3, 0))?;
    let mut inside = Draft::new(rt.alloc());
    inside.variable(0, 0)?;
    inside.variable(1, 0)?;
    refused(&rt, inside.sheet(), Rule::SheetLetter.at(1, 0))?;
    let mut stray = Draft::new(rt.alloc());
    stray.leaf(0)?;
    refused(&rt, stray.sheet(), Rule::SheetLetter.at(0, 0))
}

#[test]
fn unnamed_fields_are_zero(rt: HostRuntime) -> Result<(), Fail> {
    let mut draft = Draft::new(rt.alloc());
    draft.put(b'C', 0, 1, 0)?;
    refused(&rt, draft.sheet(), Rule::SheetFields.at(0, 0))?;
    let mut variable = Draft::new(rt.alloc());
    variable.variable(0, 2)?;
    refused(&rt, variable.sheet(), Rule::SheetFields.at(0, 0))?;
    let mut leaf = Draft::new(rt.alloc());
    leaf.variable(0, 1)?;
    leaf.put(b'L', 1, 0, 0)?;
    refused(&rt, leaf.sheet(), Rule::SheetFields.at(1, 0))?;
    let mut node = Draft::new(rt.alloc());
    node.condition(0, 0)?;
    node.variable(0, 1)?;
    node.put(b'E', 0, 0, 7)?;
    refused(&rt, node.sheet(), Rule::SheetFields.at(2, 0))
}

#[test]
fn numbers_count_from_zero(rt: HostRuntime) -> Result<(), Fail> {
    let mut draft = Draft::new(rt.alloc());
    draft.condition(1, 0)?;
    refused(&rt, draft.sheet(), Rule::NextNumber.at(0, 0))?;
    let mut many = Draft::new(rt.alloc());
    for number in 0..17 {
        many.condition(number, 0)?;
    }
    refused(&rt, many.sheet(), Rule::NextNumber.at(16, 0))?;
    let mut permit = Draft::new(rt.alloc());
    permit.permit(1, 0)?;
    refused(&rt, permit.sheet(), Rule::NextNumber.at(0, 0))
}

#[test]
fn levels_are_known(rt: HostRuntime) -> Result<(), Fail> {
    let mut draft = Draft::new(rt.alloc());
    draft.condition(0, 4)?;
    refused(&rt, draft.sheet(), Rule::KnownLevel.at(0, 4))?;
    let mut leaf = Draft::new(rt.alloc());
    leaf.variable(0, 0)?;
    leaf.leaf(70000)?;
    refused(&rt, leaf.sheet(), Rule::KnownLevel.at(1, 70000))?;
    refused(
        &rt,
        read_sheet(&ReaderSets, leaf.bytes.as_slice()),
        Rule::KnownLevel.at(1, 70000),
    )
}

#[test]
fn conditions_are_declared(rt: HostRuntime) -> Result<(), Fail> {
    let mut draft = Draft::new(rt.alloc());
    draft.condition(0, 0)?;
    draft.variable(0, 0)?;
    draft.erase(1)?;
    refused(&rt, draft.sheet(), Rule::DeclaredCondition.at(2, 1))?;
    let mut permit = Draft::new(rt.alloc());
    permit.condition(0, 0)?;
    permit.permit(0, 0x8000_0005)?;
    refused(&rt, permit.sheet(), Rule::DeclaredCondition.at(1, 2))?;
    let mut high = Draft::new(rt.alloc());
    high.permit(0, 0x8000_0000)?;
    refused(&rt, high.sheet(), Rule::DeclaredCondition.at(0, 31))
}

// A leaf may stand at depth 4; a wiping node may too, but no leaf below it.
#[test]
fn trees_are_at_most_four_deep(rt: HostRuntime) -> Result<(), Fail> {
    let mut draft = Draft::new(rt.alloc());
    draft.condition(0, 0)?;
    draft.variable(0, 0)?;
    for _ in 0..3 {
        draft.erase(0)?;
    }
    for _ in 0..4 {
        draft.leaf(0)?;
    }
    accepted(&draft)?;
    let mut deep = Draft::new(rt.alloc());
    deep.condition(0, 0)?;
    deep.variable(0, 0)?;
    for _ in 0..4 {
        deep.erase(0)?;
    }
    refused(&rt, deep.sheet(), Rule::SheetLetter.at(6, 0))?;
    deep.leaf(0)?;
    refused(&rt, deep.sheet(), Rule::TreeDepth.at(6, 0))
}

#[test]
fn wipers_are_below_what_they_wipe(rt: HostRuntime) -> Result<(), Fail> {
    let mut draft = Draft::new(rt.alloc());
    draft.condition(0, 2)?;
    draft.condition(1, 0)?;
    draft.condition(2, 3)?;
    draft.variable(0, 0)?;
    draft.leaf(0)?;
    draft.variable(1, 1)?;
    draft.erase(2)?;
    draft.erase(0)?;
    draft.leaf(1)?;
    draft.leaf(3)?;
    draft.leaf(3)?;
    refused(&rt, draft.sheet(), Rule::WipersBelow.at(5, 0))?;
    let mut later = Draft::new(rt.alloc());
    later.condition(0, 3)?;
    later.condition(1, 0)?;
    later.variable(0, 0)?;
    later.erase(1)?;
    later.leaf(1)?;
    later.erase(0)?;
    later.leaf(1)?;
    later.leaf(3)?;
    accepted(&later)
}
