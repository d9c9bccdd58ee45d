//! What a replay comes to.
use cc_base::Diag;

/// How a run stands that is followed no further (5.1.2.3 of ISO/IEC 9899:2011).
#[derive(Clone, Copy, PartialEq, Eq, Debug)]
pub enum End {
    /// The entry has returned, or `exit` or `abort` was called (5.1.2.2.3, 7.22.4.4 and 7.22.4.1).
    Ended,
    /// The last step violates a rule that ends the run.
    Violation,
    /// A number of the outside was missing or out of its range.
    Draws,
    /// The unit did something that violates no rule and is not looked at any further.
    Left,
    /// All steps were made, and the run has not stopped.
    Steps,
}

/// What a run has violated, how it stands, and how many numbers of the outside it has used.
///
/// Contracts see the list of pairs of a place and a rule, the end and the number.
#[derive(Drop)]
pub struct Outcome {
    /// All violations of the run, those of its last step included: by place and then by rule, each
    /// pair once.
    pub diags: Vec<Diag>,
    pub end: End,
    /// From 0 to how many were given; one that was out of its range is counted.
    pub used: u64,
}

impl std::marker::Model for Outcome {
    ghost use Rattle.interp.specs.Runs.OutcomeViews.{OutcomeView, end_view};

    ghost Value = { OutcomeView };

    ghost view = { λ o. record { diags = o.diags.items; end = end_view o.end; used = o.used } };
}

/// Why a replay gives no outcome.
#[derive(Clone, Copy, PartialEq, Eq, Debug)]
pub enum ReplayStop {
    /// The instances of all objects made so far (6.2.4 and 7.22.3 of ISO/IEC 9899:2011), those that
    /// have ended included, have `count` bytes together, up to the one with which they pass `limit`:
    /// `count` is 4,194,305 at least, and `limit` 4,194,304.
    Large { count: u128, limit: u64 },
    /// Want of memory; nothing is said of the run.
    Memory,
}
