//! Statements stand in their pieces as in the source.
ghost use Rattle.simulation_statements.specs.Bodies.StatementsSimulate.{LabelsSimulate, StatementsSimulate};

/// Where the works of a statement come to pieces, its items follow in these, for any number of turns and whatever comes
/// behind: expressions, declarations, blocks, `if`, `while`, `do`, `for`, `switch`, labels, `break`, `continue`, `goto`
/// and `return`.
pub fn statements_simulate()
    ensures { StatementsSimulate }
{}

/// What is left to do from a label in a statement on follows behind the mark of the label, for as many turns.
pub fn labels_simulate()
    ensures { LabelsSimulate }
{}
