// The masks that a program is checked and run by.
ghost use Rattle.std.specs.Prelude.{◌≡◌, ◌≤◌, length};

/// What may reach a target: the variables whose policies flow to it, and the conditions whose levels are below its present level.
#[derive(Clone, Copy, Default)]
pub struct Inflow {
    pub variables: u64,
    pub conditions: u16,
}

/// A variable: what may reach it, and the conditions that wipe it.
#[derive(Clone, Copy, Default)]
pub struct VariableFlow {
    pub inflow: Inflow,
    pub wipers: u16,
}

/// A permit: its conditions, the variables that flow to its from-tree, and the variables to which its to-tree flows.
#[derive(Clone, Copy, Default)]
pub struct PermitFlow {
    pub conditions: u16,
    pub sources: u64,
    pub targets: u64,
}

/// How many conditions, variables and permits a sheet declares, and what may flow where: into each variable, into a leaf of each
/// condition's level and of the lowest level, and by each permit.
// Counts beside arrays: no heap, so each array has fixed room.
#[derive(Clone, Copy)]
pub struct FlowMasks {
    pub conditions: usize,
    pub variables: usize,
    pub permits: usize,
    pub variable: [VariableFlow; 64],
    pub condition: [Inflow; 16],
    pub lowest: Inflow,
    pub permit: [PermitFlow; 8],
    ghost counts: { (conditions ≤ 16) × (variables ≤ 64) × (permits ≤ 8) },
    ghost sizes: { (length variable ≡ 64) × (length condition ≡ 16) × (length permit ≡ 8) },
}
