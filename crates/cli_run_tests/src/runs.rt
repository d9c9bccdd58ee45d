//! The worked rows of runs, as tests of `replay` on units in memory, and of `check` beside it on plain units.

#[cfg(test)]
mod plain_rows;
#[cfg(test)]
mod replay_call;
#[cfg(test)]
mod replay_rows;
#[cfg(test)]
mod run_rows;
