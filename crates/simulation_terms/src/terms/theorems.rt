//! Terms and conditions stand in their pieces as in the source.
ghost use Rattle.simulation_terms.specs.Terms.TermsSimulate.{ConditionsSimulate, TermsSimulate, UnusedTermsSimulate};

/// Where the works of a term come to pieces, its items follow in these, for any number of turns and whatever comes
/// behind: operators, assignments and steps, `&&`, `||` and `?:`, calls of the library and of functions of the unit.
pub fn terms_simulate()
    ensures { TermsSimulate }
{}

/// So do those of a term whose value is not used.
pub fn unused_terms_simulate()
    ensures { UnusedTermsSimulate }
{}

/// The items of a condition follow in its pieces where those of each way follow behind the label of that way, and its
/// tests name the same objects.
pub fn conditions_simulate()
    ensures { ConditionsSimulate }
{}
