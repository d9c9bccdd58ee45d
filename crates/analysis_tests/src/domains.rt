//! Worked rows of intervals, and of the domains above the integers at intervals.

#[cfg(test)]
mod interval_rows;
#[cfg(test)]
mod pointer_rows;
#[cfg(test)]
mod value_rows;
