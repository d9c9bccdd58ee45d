//! Rows of well-formed programs, and of programs whose loops are unrolled, as tests.
#![tactic(auto)]

#[cfg(test)]
mod check_rows;
#[cfg(test)]
mod sample_program;
#[cfg(test)]
mod turn_rows;
