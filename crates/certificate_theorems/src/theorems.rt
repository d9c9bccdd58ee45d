//! Theorems: an accepted certificate shows every violation, and what `prove` writes is accepted.
ghost use Rattle.certificate_theorems.specs.Theorems as spec;

use cc_base::IntDomain;
use transfer_system::bounded_rows::Bounded;

// ---- Lines that are read back from their texts.

/// A line with counts and positions below 2^32, and with a cell that has its bounds from -2^64 to 2^64 and its bases below
/// 1,016, is read back from its text.
pub fn lines_are_read_back()
    ensures { spec.LinesAreReadBack }
{}

// ---- Certificates of inductive maps, as the solver finds one.

/// Each inductive map of a regular program's system, as the one that the solver finds, is a closed map of the system of its
/// certificates.
pub fn inductive_maps_are_closed()
    ensures { spec.EachInductiveMapIsClosed }
{}

/// The map whose text is written for a program is the least one.
pub fn proved_certificates_are_least()
    ensures { spec.CertificatesAreLeast }
{}

/// The text of the least one, as it is written for a program that was looked at, is accepted. The program passes the looks
/// of `verify`, and of the map that is read nothing is cut.
pub fn proved_certificates_are_accepted()
    ensures accepted { spec.CertificatesAreAccepted }
    ensures passes { spec.ProvedProgramsPass }
    ensures whole { spec.NothingIsCut }
{}

/// Such a text is never refused, and what is shown of it is just what an analysis finds.
pub fn proved_certificates_show_analyses()
    ensures analyses { spec.CertificatesGiveAnalyses }
    ensures found { spec.CertificatesShowWhatIsFound }
{}

// ---- What the lines of a text decide of the texts that begin with them.

/// A text is read up to a line: every text that begins with the same lines, that one included, is read to the
/// same place, and is refused there or not as the first one is.
pub fn lines_decide()
    ensures { spec.LinesDecide }
{}

/// No text of the form begins with the lines of a text up to the one at which it is refused.
pub fn refused_lines_begin_no_text()
    ensures { spec.RefusedLinesBeginNoText }
{}

// ---- Maps that are read back from their texts.

/// The text of a map of own rows of the system of certificates is of the form, and gives the map.
pub fn own_maps_are_read_back()
    ensures { spec.EachOwnMapIsReadBack }
{}

// ---- Rows may have offsets, sizes and first zeros below 0 in a certificate, which no row of an analysis has. So
// soundness goes by what rows stand for, and not by laws on larger rows.

/// A row that is made one of the program's own, within -2^64 and 2^64, stands for what it stood for.
pub fn fitted_rows_stand_for_more<I: IntDomain>()
    ensures { spec.FittedRowsStandForMoreEverywhere I.lattice I.numbers I.stands }
{}

/// Where the row that comes along an edge stands for a state, so does the row that a closed map has for the block that the
/// edge enters.
pub fn closed_maps_are_carried<I: Bounded>()
    ensures { spec.ClosedMapsAreCarriedEverywhere I.lattice I.numbers I.stands }
{}

/// So it is with the row that the map has for the entry.
pub fn closed_maps_begin<I: Bounded>()
    ensures { spec.ClosedMapsBeginEverywhere I.lattice I.numbers I.stands }
{}

/// Each rule that a run of a program violates at a place is among what is found by a certificate that is accepted, where the
/// row of the entry stands for the start of the unit.
pub fn accepted_certificates_hold_runs()
    ensures { spec.AcceptedCertificatesHoldRuns }
{}

/// So is each rule that a run of a unit violates, where the program begins with what is in the unit's tables, and so where it
/// is the lowered program of the unit. Of a checked unit nothing else is supposed.
pub fn accepted_certificates_hold_units()
    ensures units { spec.AcceptedCertificatesHoldUnits }
    ensures lowered { spec.AcceptedCertificatesHoldLowered }
    ensures checked { spec.AcceptedCertificatesHoldChecked }
{}

/// There is a program, which divides by 0, with an analysis that finds this, and a certificate of it that is accepted, with
/// a pointer from 5 bytes before an object: no row of an analysis of it has one.
pub fn premises_can_be_met()
    ensures { spec.PremisesCanBeMet }
{}

// ---- What a verdict says of a text, and that there is one verdict alone.

/// A text that is accepted is that of a closed map of the program: of own rows, one for each block at
/// most, with the start row at or below that of the entry, where no edge leads to more than its
/// target's row.
pub fn accepted_texts_are_closed_maps()
    ensures { spec.AcceptsClosedMaps }
{}

/// A program has one verdict on a text at most.
pub fn one_verdict()
    ensures { spec.HasOneVerdict }
{}

/// A text that is of the form is the text of the map that is read: a map has one spelling.
pub fn texts_have_one_spelling()
    ensures { spec.ReadsMapTexts }
{}
