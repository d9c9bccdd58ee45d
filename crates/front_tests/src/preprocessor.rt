//! Rows of tokens, of macros and of whole units after preprocessing, as tests.

#[cfg(test)]
mod directive_rows;
#[cfg(test)]
mod file_rows;
#[cfg(test)]
mod limit_rows;
#[cfg(test)]
mod macro_rows;
#[cfg(test)]
mod standard_rows;
#[cfg(test)]
mod token_rows;
#[cfg(test)]
mod units;
