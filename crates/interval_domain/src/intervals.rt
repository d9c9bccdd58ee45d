//! Intervals of integers: the integers of the analysis.

mod interval_numbers;
mod intervals;
mod span_arithmetic;
mod span_bits;
mod span_division;
mod span_products;
mod span_relations;
mod spans;

pub use intervals::Interval;
pub use spans::Span;
