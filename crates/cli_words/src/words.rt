//! The words of a command line.

mod clap_command;
mod commands;
mod numbers;
mod reading;

pub use commands::{Command, Format, Gate, Replay, Request, Verification};
pub use reading::read_words;
