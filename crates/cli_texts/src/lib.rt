//! The texts that the program prints: reports, as text and as JSON, and refusals.
#![tactic(auto)]

mod answers;
mod fixed_texts;
mod help_text;
mod json_report;
mod load_summary;
mod loaded_units;
mod refusal_lines;
mod refusal_words;
mod replay_report;
mod text_report;

pub use answers::Answer;
pub use fixed_texts::{
    cert_refused, cert_too_long, file_too_long, no_baseline, no_draws, no_file, no_model, version,
    words_refused,
};
pub use help_text::help;
pub use json_report::report_json;
pub use load_summary::summary;
pub use loaded_units::load_unit;
pub use refusal_lines::{refusal_answer, replay_memory};
pub use refusal_words::{count_word, word_of};
pub use replay_report::replay_text;
pub use text_report::{file_name, report_text};
