//! What is left and entered on the way between two scopes is the same in the source and in the pieces.
ghost use Rattle.simulation_statements.specs.ScopeExits.Between.{JumpsAreWays, WaysArePieces, WaysEnter};
ghost use Rattle.simulation_statements.specs.ScopeExits.Chains.{ChainsHaveWays};

/// The pieces on the way between two scopes leave the objects of the scopes that do not hold both, from the innermost
/// one outwards, and then enter those of the others inwards.
pub fn ways_are_pieces()
    ensures { WaysArePieces }
{}

/// A way enters something where the scopes that are entered on it have objects.
pub fn ways_enter()
    ensures { WaysEnter }
{}

/// The source leaves and enters the same: what is open in both places is neither left nor entered.
pub fn jumps_are_ways()
    ensures { JumpsAreWays }
{}

/// Between any two places of a function there is a way on which the pieces leave and enter what the source does, where no
/// object is in two scopes.
pub fn chains_have_ways()
    ensures { ChainsHaveWays }
{}
