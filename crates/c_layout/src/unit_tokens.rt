//! A translation unit after preprocessing.
use crate::data_model::Model;
use cc_base::Tokens;

/// The tokens of a unit after translation phase 4 (5.1.1.2 of ISO/IEC 9899:2011), and the data
/// model that it is read under.
#[derive(Drop)]
pub struct Unit7 {
    pub tokens: Tokens,
    pub model: Model,
}
