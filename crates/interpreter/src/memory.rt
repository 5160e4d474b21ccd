// How the memory changes: by a write, and by a condition that comes up.
ghost use Rattle.std.specs.Prelude.{◌≡◌, ℕ, ◌<◌, ◌≤◌, ◌&&◌, pos, if◌then◌else◌, nat_lt, slice_index_or};
ghost use Rattle.policy.specs.Masks.{bit};
ghost use Rattle.sheet.specs.Sheet.{Sheet};
ghost use Rattle.machine.specs.Memory.{write, raised};
ghost use Rattle.flow.specs.Flows.{no_variable_flow};
ghost use Rattle.interpreter.specs.Meaning.{Enforces, meaning};

use flow::FlowMasks;
use store::Store;

/// The memory of a machine: its values, and the conditions that are up, as a mask.
// Masks stay beside it: a box keeps them with its sheet, and lending them to a memory for each call would be no plainer.
#[derive(Drop)]
pub struct Memory<S: Store> {
    pub store: S,
    pub up: u16,
}

// Whether a mask of conditions has one. In the mask's own width, which a loop tests without widening it.
#[tactic(auto, using(policy::proofs::Masks::bit_test))]
fn holds(mask: u16, condition: u8) -> bool
    requires { condition < 16 }
    ensures { result ≡ bit condition mask }
{
    (mask >> condition) & 1 == 1
}

impl<S: Store> Memory<S> {
    /// Writes a variable; the write is dropped while a condition that wipes the variable is up. From 64 on there is none to write.
    #[tactic(auto, using(crate::proofs::Memories::write_lands, crate::proofs::Memories::write_drops))]
    pub fn write(&mut self, masks: &FlowMasks, variable: u8, value: i32)
        ensures memory { (sh : Sheet) → Enforces masks.now sh → variable < 64 →
            meaning S.Store.values self.new ≡ write sh variable value (meaning S.Store.values self.old) }
        ensures up { self.new.up ≡ self.old.up }
        ensures beyond { 64 ≤ variable → self.new ≡ self.old }
    {
        if variable < 64 && masks.variable[variable as usize].wipers & self.up == 0 {
            self.store.put(variable as usize, value);
        }
    }

    /// Raises a condition: what it wipes becomes zero. From 16 on there is none to raise.
    pub fn raise(&mut self, masks: &FlowMasks, condition: u8)
        ensures memory { (sh : Sheet) → Enforces masks.now sh → condition < 16 →
            meaning S.Store.values self.new ≡ raised sh condition (meaning S.Store.values self.old) }
        ensures beyond { 16 ≤ condition → self.new ≡ self.old }
    {
        if condition < 16 {
            self.wipe(masks, condition);
            self.up |= 1 << condition;
        }
    }

    // Zeroes each variable that the condition wipes.
    fn wipe(&mut self, masks: &FlowMasks, condition: u8)
        requires { condition < 16 }
        ensures values { (v : ℕ) → slice_index_or (S.Store.values self.new.store) v (pos 0)
            ≡ (if nat_lt v 64 && bit condition (slice_index_or masks.now.variable v no_variable_flow).wipers then pos 0 else slice_index_or (S.Store.values self.old.store) v (pos 0)) }
        ensures up { self.new.up ≡ self.old.up }
    {
        for (variable, flow) in masks.variable.iter().enumerate() {
            if holds(flow.wipers, condition) {
                self.store.put(variable, 0);
            }
        }
    }
}
