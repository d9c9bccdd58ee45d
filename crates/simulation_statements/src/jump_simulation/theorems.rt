//! A jump follows in its pieces.
ghost use Rattle.simulation_statements.specs.JumpSimulation.Leaps.{EdgesSimulate, LeapsSimulate};

/// Where what is left to do from a label on follows behind it, a jump to it follows in the pieces that lead there,
/// wherever in the function it stands: they leave and enter what the source does.
pub fn leaps_simulate()
    ensures { LeapsSimulate }
{}

/// Where what is left to do from a label of a switch on follows behind it, and nothing is left on the way to it, what is
/// entered on the way follows in the block of its edge.
pub fn edges_simulate()
    ensures { EdgesSimulate }
{}
