//! The laws of the expansion of macros.
ghost use Rattle.c_preproc_macros.specs.Expanding.{EndsEmpty, GoesByItsFirst};
ghost use Rattle.c_preproc_macros.specs.Machine.{replaced};

/// A replaced list is nothing at its end, and else what becomes of its first token: a token that
/// stays, a macro's list between the arguments and the rest, or a refusal.
pub fn goes_by_its_first_token()
    ensures end { EndsEmpty }
    ensures first { GoesByItsFirst }
{}
