//! All that is asked of the parts of a program.
ghost use Rattle.std.specs.Prelude.{◌≡◌};
ghost use Rattle.analysis_preconditions.specs.Objects.SoundParts as spec;

use crate::objects::call_sites::{ends_with_lines, has_sites};
use crate::objects::scalar_tests::all_follow_scalars;
use crate::objects::spelled_texts::spells_over_characters;
use cfg::Flow;

/// Whether each call that allocates has a site, each call of `fgets` ends its block, each text lies over
/// characters, and the tests and the cases of edges name scalars of the kinds that they read. Each program
/// that was lowered is such a one; the theorems on single instructions and edges ask for it.
pub fn has_sound_parts(flow: &Flow) -> bool
    ensures { result ≡ spec.has_sound_parts flow.now }
{
    has_sites(flow)
        && (ends_with_lines(flow) && (spells_over_characters(flow) && all_follow_scalars(flow)))
}
