// The calls on a box.
ghost use Rattle.std.specs.Prelude.{◌≡◌, ℕ, ◌<◌, ◌≤◌, true, false, length, take, replicate, pos, MatchResult, None, slice_index_or};
ghost use Rattle.std.specs.List.{list_all};
ghost use Rattle.records.specs.declared.rule.Rule.TheVariants.{IsLevel};
ghost use Rattle.sheet.specs.Table.{blank_variable};
ghost use Rattle.machine.specs.Calls.{Call};
ghost use Rattle.machine.specs.Machine.{bare};
ghost use Rattle.siteunit.specs.Standing.{no_access, access_of};
ghost use Rattle.siteunit.specs.Obeying.{StandsFor, Obeys, Fills, itself, count, one_if, nothing, ending, front_of};

use crate::kept::{Access, KeptSheet};
use crate::site::SiteBox;
use flow::flow_masks;
use interpreter::{Ending, Memory};
use lattice::Lattice;
use policy::{condition_bit, has};
use program::read_program;
use records::{Refusal, Rule};
use sheet::{SheetTable, read_sheet};
use store::Store;

// The level, if the lattice knows it.
fn known_level<L: Lattice>(lattice: &L, level: u32) -> Result<u32, Rule>
    ensures { let known = (L.Lattice.lattice lattice.now).known level in
        MatchResult result (λ code. (code ≡ level) × (known ≡ true)) (λ rule. (rule ≡ IsLevel) × (known ≡ false)) }
{
    if lattice.known(level) {
        Ok(level)
    } else {
        Err(Rule::IsLevel)
    }
}

// Who may know each variable, and which may be fed.
fn access_to(table: &SheetTable) -> [Access; 64]
    ensures { (v : ℕ) → v < 64 → slice_index_or result v no_access ≡ access_of (slice_index_or table.now.rows v blank_variable) }
{
    let mut access = [Access::default(); 64];
    for (variable, row) in table.rows.iter().enumerate() {
        access[variable] = Access::from(row);
    }
    access
}

// Is the present level of every variable below this one?
fn all_below<L: Lattice>(lattice: &L, sheet: &KeptSheet, level: u32) -> bool
    ensures { result ≡ list_all (λ access. (L.Lattice.lattice lattice.now).below access.present level) (take sheet.now.masks.variables sheet.now.access) }
{
    sheet
        .declared()
        .iter()
        .all(|access| lattice.below(access.present, level))
}

// Writes the image of a store into a buffer of its size.
fn draw<S: Store>(store: &S, buffer: &mut [u8])
    requires { length buffer.old ≡ length (S.Store.image (S.Store.values store.now)) }
    ensures { buffer.new ≡ S.Store.image (S.Store.values store.now) }
{
    for (at, byte) in buffer.iter_mut().enumerate() {
        *byte = store.image_byte(at);
    }
}

impl<L: Lattice, S: Store> SiteBox<L, S> {
    /// A box without a sheet, over a new store.
    pub fn new(lattice: L) -> Self
        ensures fields { (result.lattice ≡ lattice) × (S.Store.values result.memory.store ≡ replicate 64 (pos 0)) × (result.program ≡ None) × (result.memory.up ≡ 0) }
        ensures bare { StandsFor L.Lattice.lattice S.Store.values result bare }
    {
        SiteBox {
            lattice,
            memory: Memory {
                store: S::new(),
                up: 0,
            },
            sheet: None,
            program: None,
        }
    }

    /// Takes a sheet, if the box has none yet; answers how many variables it declares.
    pub fn sheet(&mut self, bytes: &[u8]) -> Result<u8, Refusal>
        ensures { Obeys L.Lattice.lattice S.Store.values S.Store.image count self.old self.new (Call.sheet bytes.now) result }
    {
        if self.sheet.is_some() {
            return Err(Rule::NoSheetYet.into());
        }
        let table = read_sheet(&self.lattice, bytes)?;
        let masks = flow_masks(&self.lattice, &table);
        self.sheet = Some(KeptSheet {
            levels: table.levels,
            access: access_to(&table),
            masks,
        });
        self.program = None;
        self.memory.store = S::new();
        self.memory.up = 0;
        Ok(masks.variables as u8)
    }

    /// Takes a program that is valid under the sheet, in place of the one before; answers how many records it has.
    pub fn load(&mut self, bytes: &[u8]) -> Result<u16, Refusal>
        ensures { Obeys L.Lattice.lattice S.Store.values S.Store.image count self.old self.new (Call.load bytes.now) result }
    {
        let sheet = self.sheet.as_ref().ok_or(Rule::NeedsSheet)?;
        let program = read_program(&sheet.masks, bytes)?;
        self.program = Some(program);
        Ok(program.count as u16)
    }

    /// Writes a variable that the outside may feed.
    pub fn feed(&mut self, variable: u8, value: i32) -> Result<(), Refusal>
        ensures { Obeys L.Lattice.lattice S.Store.values S.Store.image nothing self.old self.new (Call.feed variable value) result }
    {
        let sheet = self.sheet.as_ref().ok_or(Rule::NeedsSheet)?;
        let place = sheet.variable(variable)?;
        if !sheet.access[place].fed {
            return Err(Rule::MayBeFed.into());
        }
        if sheet.masks.variable[place].wipers & self.memory.up != 0 {
            return Err(Rule::NotWiped.into());
        }
        self.memory.write(&sheet.masks, variable, value);
        Ok(())
    }

    /// Raises a condition: what it wipes becomes zero, and stays so until the condition is lowered.
    pub fn raise(&mut self, condition: u8) -> Result<(), Refusal>
        ensures { Obeys L.Lattice.lattice S.Store.values S.Store.image nothing self.old self.new (Call.raise condition) result }
    {
        let sheet = self.sheet.as_ref().ok_or(Rule::NeedsSheet)?;
        sheet.condition(condition)?;
        self.memory.raise(&sheet.masks, condition);
        Ok(())
    }

    /// Lowers a condition.
    pub fn lower(&mut self, condition: u8) -> Result<(), Refusal>
        ensures { Obeys L.Lattice.lattice S.Store.values S.Store.image nothing self.old self.new (Call.lower condition) result }
    {
        let sheet = self.sheet.as_ref().ok_or(Rule::NeedsSheet)?;
        sheet.condition(condition)?;
        self.memory.up &= !condition_bit(condition);
        Ok(())
    }

    /// Runs the program once, with so many turns of loops at most; answers how it ended, and the turns used.
    pub fn pass(&mut self, turns: u32) -> Result<Ending, Refusal>
        ensures { Obeys L.Lattice.lattice S.Store.values S.Store.image ending self.old self.new (Call.pass turns) result }
    {
        let sheet = self.sheet.as_ref().ok_or(Rule::NeedsSheet)?;
        let program = self.program.as_ref().ok_or(Rule::NeedsProgram)?;
        Ok(self.memory.pass(&sheet.masks, program, turns))
    }

    /// The value of a variable, for who may know it.
    pub fn look(&self, level: u32, variable: u8) -> Result<i32, Refusal>
        ensures { Obeys L.Lattice.lattice S.Store.values S.Store.image itself self.now self.now (Call.look level variable) result }
    {
        let sheet = self.sheet.as_ref().ok_or(Rule::NeedsSheet)?;
        let level = known_level(&self.lattice, level)?;
        let place = sheet.variable(variable)?;
        if !self.lattice.below(sheet.access[place].present, level) {
            return Err(Rule::MayKnow.into());
        }
        Ok(self.memory.store.get(place))
    }

    /// Whether a condition is up, for who may know it.
    pub fn ask(&self, level: u32, condition: u8) -> Result<bool, Refusal>
        ensures { Obeys L.Lattice.lattice S.Store.values S.Store.image one_if self.now self.now (Call.ask level condition) result }
    {
        let sheet = self.sheet.as_ref().ok_or(Rule::NeedsSheet)?;
        let level = known_level(&self.lattice, level)?;
        let place = sheet.condition(condition)?;
        if !self.lattice.below(sheet.levels[place], level) {
            return Err(Rule::MayKnow.into());
        }
        Ok(has(self.memory.up.into(), condition))
    }

    /// Writes the image of the store to the front of the buffer, for who may know every variable; answers its length.
    pub fn image(&self, level: u32, buffer: &mut [u8]) -> Result<usize, Refusal>
        ensures obeys { Obeys L.Lattice.lattice S.Store.values S.Store.image (front_of buffer.new) self.now self.now (Call.image level (length buffer.old)) result }
        ensures fills { Fills (S.Store.image (S.Store.values self.now.memory.store)) buffer.old buffer.new result }
    {
        let sheet = self.sheet.as_ref().ok_or(Rule::NeedsSheet)?;
        let level = known_level(&self.lattice, level)?;
        if !all_below(&self.lattice, sheet, level) {
            return Err(Rule::MayKnow.into());
        }
        let size = self.memory.store.image_len();
        if buffer.len() < size {
            return Err(Rule::RoomForImage.into());
        }
        draw(&self.memory.store, &mut buffer[..size]);
        Ok(size)
    }
}
