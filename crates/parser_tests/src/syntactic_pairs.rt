//! Rows of the three syntactic rules over units that were checked by hand, as tests.

#[cfg(test)]
mod term_rows;
