//! Rows of equal width in one block of memory, which is reserved once.

mod absorption;
mod pool;
mod row_name;

pub use pool::RowPool;
pub use row_name::Row;
