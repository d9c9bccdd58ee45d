//! Rows of what an instruction makes of a row, and of the rules that it may break, as tests.

#[cfg(test)]
mod division_rows;
