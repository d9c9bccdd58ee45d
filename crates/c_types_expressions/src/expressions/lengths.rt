//! The length that an expression in brackets is (6.7.6.2 of ISO/IEC 9899:2011).
ghost use Rattle.std.specs.Prelude.{◌≡◌};
ghost use Rattle.c_layout.specs.CheckedTrees.{term_tree};
ghost use Rattle.c_types_expressions.specs.Expressions.Lengths as spec;

use c_layout::{CType, CheckedTerm};

/// A number that is a length.
fn positive(n: i128) -> Option<u64>
    ensures { result ≡ spec.positive n }
{
    match u64::try_from(n) {
        Ok(count) => { if count > 0 { Some(count) } else { None } }
        Err(_) => None,
    }
}

/// A constant that is a length.
fn positive_if(constant: Option<i128>) -> Option<u64>
    ensures { result ≡ spec.positive_if constant }
{
    match constant {
        Some(n) => positive(n),
        None => None,
    }
}

/// The length that a term is: an integer constant above 0.
pub fn length_of(term: &CheckedTerm) -> Option<u64>
    ensures { result ≡ spec.length_of (term_tree term.now) }
{
    match &term.ctype {
        CType::Int(_) => positive_if(term.constant),
        CType::Pointer(_) => None,
        CType::Array(_, _) => None,
        CType::Struct(_) => None,
        CType::Void => None,
    }
}
