// What may flow where, by the rows of a table and the lattice of its levels.
ghost use Rattle.std.specs.Prelude.{◌≡◌, length, take};
ghost use Rattle.flow.specs.TableFlows.{conditions_in, variables_in, permits_in, ConditionsBelow, VariablesInto, VariablesFrom, InflowOf, VariableFlowOf, PermitFlowOf, IntoVariables, IntoConditions, ByPermits, leaf_row};

use crate::items::{declared, made_of, mask_where};
use crate::masks::{Inflow, PermitFlow, VariableFlow};
use lattice::Lattice;
use policy::Row;
use sheet::{Grant, SheetTable, VariableRow};

// A table, and the lattice that says what may flow between its rows.
#[derive(Drop)]
pub(crate) struct Flows<'a, L> {
    pub lattice: &'a L,
    pub table: &'a SheetTable,
}

impl<L: Lattice> Flows<'_, L> {
    // The levels of the declared conditions.
    pub(crate) fn conditions(&self) -> &[u32]
        ensures items { result.now ≡ take (conditions_in self.now.table.now) self.now.table.now.levels }
        ensures count { length result.now ≡ conditions_in self.now.table.now }
    {
        declared(&self.table.levels, self.table.conditions)
    }

    // The rows of the declared variables.
    pub(crate) fn variables(&self) -> &[VariableRow]
        ensures items { result.now ≡ take (variables_in self.now.table.now) self.now.table.now.rows }
        ensures count { length result.now ≡ variables_in self.now.table.now }
    {
        declared(&self.table.rows, self.table.variables)
    }

    // The declared permits.
    pub(crate) fn permits(&self) -> &[Grant]
        ensures items { result.now ≡ take (permits_in self.now.table.now) self.now.table.now.grants }
        ensures count { length result.now ≡ permits_in self.now.table.now }
    {
        declared(&self.table.grants, self.table.permits)
    }

    // The conditions whose levels are below this one.
    fn conditions_below(&self, level: u32) -> u16
        ensures { ConditionsBelow (L.Lattice.lattice self.now.lattice.now) self.now.table.now level result }
    {
        mask_where(self.conditions(), |lower| self.lattice.below(*lower, level)) as u16
    }

    // The variables that flow to a target.
    fn variables_into(&self, target: &Row) -> u64
        ensures { VariablesInto (L.Lattice.lattice self.now.lattice.now) self.now.table.now target.now result }
    {
        mask_where(
            self.variables(),
            |source| source.policy.flows_to(self.lattice, target),
        )
    }

    // The variables to which a source flows.
    fn variables_from(&self, source: &Row) -> u64
        ensures { VariablesFrom (L.Lattice.lattice self.now.lattice.now) self.now.table.now source.now result }
    {
        mask_where(
            self.variables(),
            |target| source.flows_to(self.lattice, &target.policy),
        )
    }

    // What may reach a target of this row.
    fn inflow(&self, target: &Row) -> Inflow
        ensures { InflowOf (L.Lattice.lattice self.now.lattice.now) self.now.table.now target.now result }
    {
        Inflow {
            variables: self.variables_into(target),
            conditions: self.conditions_below(target.present_level()),
        }
    }

    // What may reach a leaf of this level.
    pub(crate) fn leaf_inflow(&self, level: u32) -> Inflow
        ensures { InflowOf (L.Lattice.lattice self.now.lattice.now) self.now.table.now (leaf_row level) result }
    {
        let mut leaf = Row::new();
        leaf.add(level, 0);
        self.inflow(&leaf)
    }

    // What may reach a variable of this row, and what wipes it.
    fn variable_flow(&self, row: &Row) -> VariableFlow
        ensures { VariableFlowOf (L.Lattice.lattice self.now.lattice.now) self.now.table.now row.now result }
    {
        VariableFlow {
            inflow: self.inflow(row),
            wipers: row.wipers,
        }
    }

    // What a permit releases, and into what.
    fn permit_flow(&self, permit: &Grant) -> PermitFlow
        ensures { PermitFlowOf (L.Lattice.lattice self.now.lattice.now) self.now.table.now permit.now result }
    {
        PermitFlow {
            conditions: (permit.conditions & 0xffff) as u16,
            sources: self.variables_into(&permit.from),
            targets: self.variables_from(&permit.to),
        }
    }

    // The flow of each variable.
    pub(crate) fn by_variable(&self) -> [VariableFlow; 64]
        ensures { IntoVariables (L.Lattice.lattice self.now.lattice.now) self.now.table.now result }
    {
        made_of(
            self.variables(),
            |variable| self.variable_flow(&variable.policy),
        )
    }

    // What may reach a leaf of each condition's level.
    pub(crate) fn by_condition(&self) -> [Inflow; 16]
        ensures { IntoConditions (L.Lattice.lattice self.now.lattice.now) self.now.table.now result }
    {
        made_of(self.conditions(), |level| self.leaf_inflow(*level))
    }

    // What each permit releases, and into what.
    pub(crate) fn by_permit(&self) -> [PermitFlow; 8]
        ensures { ByPermits (L.Lattice.lattice self.now.lattice.now) self.now.table.now result }
    {
        made_of(self.permits(), |permit| self.permit_flow(permit))
    }
}
