//! What the words of a command line ask for.

/// How a report is printed.
#[derive(Clone, Copy, PartialEq, Eq, Debug)]
pub enum Format {
    /// A line for each diagnostic.
    Text,
    /// One line of JSON.
    Json,
    /// One line of SARIF 2.1.0.
    Sarif,
}

/// A verb's unit, directories and options.
#[derive(Drop)]
pub struct Command {
    /// The name of the unit's file.
    pub unit: String,
    /// The directories that are searched for headers, in order.
    pub dirs: Vec<String>,
    /// The name of a data model, or of a file that has one.
    pub model: String,
    pub format: Format,
    /// The function at which runs start.
    pub entry: String,
    /// How many turns of loops, counted over all loops together, are analysed by themselves, from 0 to
    /// 64; None where none are.
    pub turns: Option<u32>,
    /// From 0 to 2147483647.
    pub seed: u32,
    /// From 1 to 300.
    pub count: u32,
    /// How many steps a replay takes at most, from 0 to 1000000.
    pub steps: u32,
}

/// What a gate is asked for: a unit, and the name of the file with its baseline.
#[derive(Drop)]
pub struct Gate {
    pub command: Command,
    pub base: String,
}

/// What a verification is asked for: a unit, and the name of the file with its certificate.
#[derive(Drop)]
pub struct Verification {
    pub command: Command,
    pub cert: String,
}

/// What a replay is asked for: a unit, and the name of the file with its draws, where it takes some.
#[derive(Drop)]
pub struct Replay {
    pub command: Command,
    pub draws: Option<String>,
}

/// What is asked for.
#[derive(Drop)]
pub enum Request {
    /// `--help` or `-h`, before any fault.
    Help,
    /// `--version` or `-V`, before any fault.
    Version,
    /// `check`: a unit is analysed.
    Check(Command),
    /// `load`: a unit is made and analysed.
    Load(Command),
    /// `gate`: a unit is analysed, and what a baseline holds is left out of its report.
    Gate(Gate),
    /// `prove`: a unit is analysed, and the map that was found is printed as a certificate.
    Prove(Command),
    /// `verify`: a certificate of a unit is checked, and the unit is judged by its map.
    Verify(Verification),
    /// `replay`: one run of a unit is taken, over the draws of a file.
    Replay(Replay),
    /// The words are refused.
    Refused,
}
