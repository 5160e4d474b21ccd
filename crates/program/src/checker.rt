// What a program is checked by and kept in, and the guard that puts the context back.
ghost use Rattle.std.specs.Prelude.{◌≡◌, length};

use crate::context::Context;
use crate::kept::Instruction;
use flow::FlowMasks;

// The context that commands stand under, a sheet's masks, and the instructions kept so far.
#[derive(Drop)]
pub(crate) struct Checker<'m> {
    // Here, so that no command takes it as a parameter: the guard puts the former one back.
    pub(crate) context: Context,
    pub(crate) masks: &'m FlowMasks,
    pub(crate) instructions: [Instruction; 256],
    ghost full: { length instructions ≡ 256 },
}

// Holds a checker while a block is checked, and puts the former context back when that ends or fails.
pub(crate) struct Guard<'c, 'm> {
    pub(crate) checker: &'c mut Checker<'m>,
    pub(crate) former: Context,
}

impl Drop for Guard<'_, '_> {
    fn drop(self)
        ensures masks { self.exit.0.now.masks ≡ self.entry.checker.now.masks }
        ensures context { self.exit.0.now.context ≡ self.entry.former }
        ensures instructions { self.exit.0.now.instructions ≡ self.entry.checker.now.instructions }
    {
        self.checker.context = self.former;
        let Guard {
            checker: _,
            former: _,
        } = self;
    }
}
