//! The pieces of a unit, each of which must be one external declaration.
ghost use Rattle.std.specs.Prelude.{◌≡◌, ◌≤◌, ◌<◌, ◌+◌, length};
ghost use Rattle.c_parser.specs.Pieces.{begun, behind_left_brace, behind_right_brace, behind, piece_length};

use c_parser_tokens::{Punctuator, Symbol, Terminal};

/// What a piece has had so far.
#[derive(Clone, Copy)]
struct Progress {
    /// How many braces are open.
    depth: usize,
    /// Whether the outermost open brace follows a `)`.
    is_body: bool,
    /// Whether the last terminal was a `)`.
    is_behind_parenthesis: bool,
    /// Whether the piece is complete.
    is_complete: bool,
}

/// A piece that has had nothing.
fn begun() -> Progress
    ensures { result ≡ begun }
{
    Progress {
        depth: 0,
        is_body: false,
        is_behind_parenthesis: false,
        is_complete: false,
    }
}

/// Behind a `{`.
fn behind_left_brace(before: Progress) -> Progress
    requires { before.depth < 18446744073709551615 }
    ensures { result ≡ behind_left_brace before }
{
    let is_body = if before.depth == 0 {
        before.is_behind_parenthesis
    } else {
        before.is_body
    };
    Progress {
        depth: before.depth + 1,
        is_body,
        is_behind_parenthesis: false,
        is_complete: false,
    }
}

/// Behind a `}`.
fn behind_right_brace(before: Progress) -> Progress
    ensures { result ≡ behind_right_brace before }
{
    Progress {
        depth: before.depth.saturating_sub(1),
        is_body: before.is_body,
        is_behind_parenthesis: false,
        is_complete: before.depth == 1 && before.is_body,
    }
}

/// Behind a terminal that is no brace.
fn behind_other(before: Progress, is_behind_parenthesis: bool, is_complete: bool) -> Progress
    ensures { result ≡ record { depth = before.depth; is_body = before.is_body; is_behind_parenthesis = is_behind_parenthesis; is_complete = is_complete } }
{
    Progress {
        depth: before.depth,
        is_body: before.is_body,
        is_behind_parenthesis,
        is_complete,
    }
}

/// Behind one terminal more.
fn behind(before: Progress, symbol: Symbol) -> Progress
    requires { before.depth < 18446744073709551615 }
    ensures value { result ≡ behind before symbol }
    ensures depth { result.depth ≤ before.depth + 1 }
{
    match symbol {
        Symbol::Punctuator(Punctuator::LeftBrace) => behind_left_brace(before),
        Symbol::Punctuator(Punctuator::RightBrace) => behind_right_brace(before),
        Symbol::Punctuator(Punctuator::Semicolon) => behind_other(before, false, before.depth == 0),
        Symbol::Punctuator(Punctuator::RightParenthesis) => behind_other(before, true, false),
        _ => behind_other(before, false, false),
    }
}

/// The length of the first piece: it ends at a `;` outside of braces, or at the `}` that closes an
/// outermost `{` behind a `)`; otherwise with the unit.
pub fn piece_length(terminals: &[Terminal]) -> usize
    ensures value { result ≡ piece_length terminals.now }
    ensures within { result ≤ length terminals.now }
    ensures some { 0 < length terminals.now → 0 < result }
{
    let mut progress = begun();
    for at in 0..terminals.len() {
        progress = behind(progress, terminals[at].symbol);
        if progress.is_complete {
            return at + 1;
        }
    }
    terminals.len()
}
