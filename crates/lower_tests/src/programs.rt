//! Whole control-flow programs of small units, as texts that were written by hand from the table of
//! constructs (docs/dev/control-flow.md).

#[cfg(test)]
mod call_rows;
#[cfg(test)]
mod condition_rows;
#[cfg(test)]
mod dumps;
#[cfg(test)]
mod loop_rows;
#[cfg(test)]
mod object_rows;
#[cfg(test)]
mod selection_rows;
