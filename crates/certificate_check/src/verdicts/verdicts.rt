//! What the check of a certificate comes to.
ghost use Rattle.std.specs.Prelude.{◌≡◌};
ghost use Rattle.certificate_check.specs.Verdicts.Verdicts.{fault_of, is_yes};

use crate::closed_maps::MapFault;
use cc_base::Memory;

/// Why a text is refused.
#[derive(Clone, Copy, PartialEq, Eq, Debug)]
pub enum CertFault {
    /// The text is not of the form for the program: the line with this number, counted from 1, is the
    /// first one such that no text of the form begins with the lines up to it.
    Form(u64),
    /// The entry is not reached, or its row is not at or above the start row.
    Start,
    /// The first edge that makes of its source's row one that is not at or below its target's.
    Edge(u32),
}

/// Whether a text is that of a closed map of a program.
#[derive(Clone, Copy, PartialEq, Eq, Debug)]
pub enum Verdict {
    /// It is.
    Yes,
    /// It is not.
    No(CertFault),
}

/// What keeps a map from being closed, as what is wrong with its text.
pub fn fault_of(fault: MapFault) -> CertFault
    ensures { result ≡ fault_of fault }
{
    match fault {
        MapFault::Start => CertFault::Start,
        MapFault::Edge(edge) => CertFault::Edge(edge),
    }
}

/// Whether the answer is yes.
pub fn is_yes(answer: &Result<Verdict, Memory>) -> bool
    ensures { result ≡ is_yes answer.now }
{
    match answer {
        Ok(Verdict::Yes) => true,
        Ok(Verdict::No(_)) => false,
        Err(_) => false,
    }
}
