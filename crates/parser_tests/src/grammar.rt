//! Rows of the grammar over units of given tokens, and over whole texts, which are preprocessed first, as tests.

#[cfg(test)]
mod acceptance_rows;
#[cfg(test)]
mod blank_tokens;
#[cfg(test)]
mod grouping_rows;
#[cfg(test)]
mod outlines;
#[cfg(test)]
mod standard_rows;
#[cfg(test)]
mod text_rows;
