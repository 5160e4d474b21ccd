// Which letters may stand where in a program.
ghost use Rattle.std.specs.Prelude.{◌≡◌};
ghost use Rattle.program.specs.Letters.{kind_at};

use crate::innermost::{Innermost, RecordKind};
use crate::kept::Sign;

// What a record with this letter is where this block is the innermost, or `None` where it may not stand.
pub(crate) fn kind_at(letter: u8, innermost: Option<Innermost>) -> Option<RecordKind>
    ensures { result ≡ kind_at letter innermost }
{
    // By letter: the format's own.
    let kind = match letter as char {
        'S' => RecordKind::Set,
        '+' => RecordKind::Sign(Sign::Plus),
        '-' => RecordKind::Sign(Sign::Minus),
        '*' => RecordKind::Sign(Sign::Times),
        '<' => RecordKind::Sign(Sign::Less),
        '=' => RecordKind::Sign(Sign::Equal),
        'D' => RecordKind::Release,
        'U' => RecordKind::Raise,
        'I' => RecordKind::VariableTest,
        'Q' => RecordKind::ConditionTest,
        'W' => RecordKind::Loop,
        'J' if innermost == Some(Innermost::First) => RecordKind::Mark,
        'K' if innermost.is_some_and(|block| block != Innermost::First) => RecordKind::Mark,
        _ => return None,
    };
    Some(kind)
}
