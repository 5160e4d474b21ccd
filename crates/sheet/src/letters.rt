// Which letters may stand where in a sheet.
ghost use Rattle.std.specs.Prelude.{◌≡◌};
ghost use Rattle.sheet.specs.Letters.{item_at, part_at};

use crate::position::{Item, Part, Section};

// The item that a record with this letter opens in this section, or `None` where it may not stand there.
pub(crate) fn item_at(letter: u8, section: Section) -> Option<Item>
    ensures { result ≡ item_at letter section }
{
    // By letter: the format's own.
    match letter as char {
        'C' if section == Section::Conditions => Some(Item::Condition),
        'V' if section != Section::Permits => Some(Item::Variable),
        'R' => Some(Item::Permit),
        _ => None,
    }
}

// What a record with this letter is in a tree, or `None` where no tree has it.
pub(crate) fn part_at(letter: u8) -> Option<Part>
    ensures { result ≡ part_at letter }
{
    // By letter: the format's own.
    match letter as char {
        'L' => Some(Part::Leaf),
        'E' => Some(Part::Node),
        _ => None,
    }
}
