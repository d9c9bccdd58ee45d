//! The worked rows of rules and typing, as tests of the program on units in memory.
#![tactic(auto)]

#[cfg(test)]
mod alias_rows;
#[cfg(test)]
mod array_rows;
#[cfg(test)]
mod call;
#[cfg(test)]
mod rule_rows;
#[cfg(test)]
mod taint_rows;
#[cfg(test)]
mod text_rule_rows;
#[cfg(test)]
mod typing_rows;
