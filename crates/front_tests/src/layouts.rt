//! Rows of models, layouts and leaves, and of real files and writers, as tests.

#[cfg(test)]
mod layout_rows;
#[cfg(test)]
mod outside_rows;
