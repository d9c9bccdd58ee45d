//! Theorems: transfer functions of string and input calls are sound.
ghost use Rattle.library_sound.specs.Theorems as spec;

use cc_base::IntDomain;

// ---- What a text that is appended to another makes of a row stands for the memory in which its bytes were
// written, where the text that was there is known to end at the first of them or nothing is said of it. So where a
// row stands for a state, the row behind a call that appends a text stands for the state behind it, there is none
// only where no run goes on, and each rule that the call violates is admitted. It is asked that no byte of an
// object is one of two arrays that are followed for their first zeros, as it is in each well-formed program.

/// The arrays of an object that are followed for their first zeros stand behind each other; an instance of an
/// allocation is one.
pub fn well_formed_programs_have_apart_texts()
    ensures { spec.WellFormedHasApartTexts }
{}

/// A text of a known length whose first byte takes the place of the zero of another.
pub fn append_writes_are_sound<I: IntDomain>()
    ensures { spec.AppendWritesAreSound I.lattice I.numbers I.stands }
{}

/// `strcat`.
pub fn append_calls_are_sound<I: IntDomain>()
    ensures { spec.AppendCallsAreSoundEverywhere I.lattice I.numbers I.stands }
{}

// ---- Where a row stands for a state, the row behind a call that copies so many bytes of a text stands for the
// state behind it, there is none only where no run goes on, and each rule that the call violates is admitted.

/// `strncpy`, with any bound, 0 too: a source that has no zero among its first bytes is told, and copied where it is
/// long enough.
pub fn bounded_text_calls_are_sound<I: IntDomain>()
    ensures { spec.BoundedTextCallsAreSound I.lattice I.numbers I.stands }
{}

// ---- Where a row stands for a state, the row behind a call that gives a result alone, or ends the program,
// stands for the state behind it, there is none only where no run goes on, and each rule that the call violates is
// admitted.

/// `exit`, `abort`, `getchar`, `putchar`, and the functions on characters.
pub fn result_calls_are_sound<I: IntDomain>()
    ensures { spec.ResultCallsAreSoundEverywhere I.lattice I.numbers I.stands }
{}

// ---- Where a row stands for a state, the row behind a call that sets bytes stands for the state behind it, there
// is none only where no run goes on, and each rule that the call violates is admitted, if its size is not
// negative.

/// `memset`.
pub fn fill_calls_are_sound<I: IntDomain>()
    ensures { spec.FillCallsAreSoundEverywhere I.lattice I.numbers I.stands }
{}

// ---- A call of `fgets` ends its block. Where a row stands for a state, the row that comes along the edge that is
// taken stands for the state there: with no line, that of the null pointer; with a line, that in which its bytes
// were written. Each rule that the call violates is admitted.

/// `fgets`, and the two edges behind it; a line may have zeros before the one that ends it.
pub fn line_ends_are_sound<I: IntDomain>()
    ensures { spec.LineEndsAreSoundEverywhere I.lattice I.numbers I.stands }
{}

// ---- Where a row stands for a state, the row behind a call of `printf` stands for the state behind it, there is
// none only where no run goes on, and each rule that the call violates is admitted.

/// `printf` (7.21.6.3 of ISO/IEC 9899:2011).
pub fn print_calls_are_sound<I: IntDomain>()
    ensures { spec.PrintCallsAreSoundEverywhere I.lattice I.numbers I.stands }
{}

// ---- Where a row stands for a state, the row behind an instruction that spells a text stands for the state
// behind it.

/// A text and its closing zero, as far as they fit, are written over characters of an object.
pub fn spell_steps_are_sound<I: IntDomain>()
    ensures { spec.SpellStepsAreSoundEverywhere I.lattice I.numbers I.stands }
{}

/// An array whose first zero is followed is one of characters, so that a text that fills it lies over characters.
pub fn followed_arrays_are_characters()
    ensures { spec.FollowedArraysAreCharactersEverywhere }
{}

// ---- Where a row stands for a state, the row behind a call that reads strings, and writes none, stands for the
// state behind it, there is none only where no run goes on, and each rule that the call violates is admitted.

/// `strlen`, `strcmp` and `puts`.
pub fn string_calls_are_sound<I: IntDomain>()
    ensures { spec.StringCallsAreSoundEverywhere I.lattice I.numbers I.stands }
{}

// ---- What a text that is written makes of a row stands for the memory in which its bytes were written, where it
// lies where the analysis says, has such characters, and the rule for first zeros holds of it. So where a row
// stands for a state, the row behind a call that copies a text stands for the state behind it, there is none only
// where no run goes on, and each rule that the call violates is admitted.

/// Texts of a known length, as `strcpy` and `fgets` write them, and bytes of which none is known to be zero, as by `strncpy`.
pub fn text_writes_are_sound<I: IntDomain>()
    ensures { spec.TextWritesAreSound I.lattice I.numbers I.stands }
{}

/// `strcpy`.
pub fn text_calls_are_sound<I: IntDomain>()
    ensures { spec.TextCallsAreSoundEverywhere I.lattice I.numbers I.stands }
{}
