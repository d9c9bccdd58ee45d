//! Certificates checked without a solver: whether the text of a map is that of a closed map of a
//! program.

mod verdicts;
mod verification;

pub use verdicts::{CertFault, Verdict};
pub use verification::verify;
