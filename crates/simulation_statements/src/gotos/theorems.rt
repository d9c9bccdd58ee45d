//! A `goto` follows in its pieces.
ghost use Rattle.simulation_statements.specs.Gotos.Gotos.{GotosSimulate};

/// Where what is left to do from a label on follows behind it for some turns, a `goto` to it follows in its pieces for
/// two turns more, wherever in the function it stands.
pub fn gotos_simulate()
    ensures { GotosSimulate }
{}
