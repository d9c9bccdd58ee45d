//! Rows of pools and of the least maps of small systems, as tests.

#[cfg(test)]
mod pool_rows;
#[cfg(test)]
mod table_rows;
