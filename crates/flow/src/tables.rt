// The masks of a whole sheet.
ghost use Rattle.flow.specs.TableFlows.{FlowsOf};

use crate::flows::Flows;
use crate::masks::FlowMasks;
use lattice::Lattice;
use sheet::SheetTable;

/// The masks of a table: under each valid sheet that it represents, what may flow where.
pub fn flow_masks<L: Lattice>(lattice: &L, table: &SheetTable) -> FlowMasks
    ensures { FlowsOf (L.Lattice.lattice lattice.now) table.now result }
{
    let flows = Flows { lattice, table };
    FlowMasks {
        conditions: flows.conditions().len(),
        variables: flows.variables().len(),
        permits: flows.permits().len(),
        variable: flows.by_variable(),
        condition: flows.by_condition(),
        lowest: flows.leaf_inflow(lattice.lowest()),
        permit: flows.by_permit(),
    }
}
