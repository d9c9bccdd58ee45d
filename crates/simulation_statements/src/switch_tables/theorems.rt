//! The scopes in which the labels of switches stand.
ghost use Rattle.simulation_statements.specs.SwitchTables.NotedChoices.{ChoicesAreNoted};

/// The tree of a function's scopes notes each case of each switch, and its default label, with the scope in which it
/// stands.
pub fn choices_are_noted()
    ensures { ChoicesAreNoted }
{}
