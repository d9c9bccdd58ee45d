//! Rows of the built-in headers, of the data models with names, and of memory (loads, stores and lifetimes), as tests.

#[cfg(test)]
mod access_rows;
#[cfg(test)]
mod header_texts;
#[cfg(test)]
mod library_names;
#[cfg(test)]
mod model_rows;
