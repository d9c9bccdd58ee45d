//! The label that a value selects, and the edge of the pieces that is taken with it.
ghost use Rattle.simulation_statements.specs.Switches.SwitchTargets.{SwitchesSimulate};
ghost use Rattle.simulation_statements.specs.Switches.ValueEdges.{ValuesHaveEdges};

/// Where a switch has an arm for each of its case labels, a value takes the edge of the case that it selects, the first
/// one of that value, and the edge of all other values where it selects none.
pub fn values_have_edges()
    ensures { ValuesHaveEdges }
{}

/// Where behind the edge of each case, and behind that of all other values, follows what the source goes on with, the
/// switch follows in the piece that dispatches.
pub fn switches_simulate()
    ensures { SwitchesSimulate }
{}
