// The program-counter context as masks.
ghost use Rattle.std.specs.Prelude.{◌≡◌};
ghost use Rattle.program.specs.Contexts.{with_variable, with_conditions};

use policy::mask_of;

// The variables and the conditions whose tests a command stands under.
#[derive(Clone, Copy, Default)]
pub(crate) struct Context {
    pub(crate) variables: u64,
    pub(crate) conditions: u16,
}

impl Context {
    // The context with one more variable.
    pub(crate) fn with_variable(self, variable: u8) -> Context
        ensures { result ≡ with_variable variable self }
    {
        Context {
            variables: self.variables | mask_of(variable),
            ..self
        }
    }

    // The context with more conditions.
    pub(crate) fn with_conditions(self, conditions: u16) -> Context
        ensures { result ≡ with_conditions conditions self }
    {
        Context {
            conditions: self.conditions | conditions,
            ..self
        }
    }
}
