//! Cuts a file into its longest pieces, once, forward.
ghost use Rattle.std.specs.Prelude.{◌≡◌, ◌≤◌, ◌^◌, ◌++◌, length, IfOk};
ghost use Rattle.cc_base.specs.declared.lexemes.Token.{Token};
ghost use Rattle.cc_base.specs.declared.refusals.Fault.{Fault};
ghost use Rattle.c_lexer.specs.Answers.{IfRefused};
ghost use Rattle.c_lexer.specs.FileTokens.{file_tokens, Gives};
ghost use Rattle.c_lexer.specs.Cutting.{cause, too_many, token_list, fault_of, Lexes, Refuses};

use crate::pieces::{Shape, State};
use crate::reading::{begins, legal_length, piece_at};
use crate::splicing::{Cursor, splice};
use cc_base::{Fault, Place, Refusal, Stop, Text, Token, Tokens};
use std::alloc::{AllocError, Global};

fn refused(place: Place, refusal: Refusal) -> Stop
    ensures { result ≡ Stop.Refused (fault_of place refusal) }
{
    Stop::Refused(Fault { place, refusal })
}

/// Why no piece begins at the front of `z`.
fn cause(z: &[u8]) -> Refusal
    ensures { result ≡ cause z.now }
{
    match z {
        [b, ..] if *b == 34 || *b == 39 => Refusal::OpenLiteral,
        [b, rest @ ..] if *b == 47 && begins(42, rest) => Refusal::OpenComment,
        _ => Refusal::BadByte,
    }
}

fn too_many() -> Refusal
    ensures { result ≡ too_many }
{
    Refusal::TooManyTokens {
        count: 131_073,
        limit: 131_072,
    }
}

/// Adds the token that a piece is, if it is one.
fn add(
    alloc: Global,
    tokens: &mut Tokens,
    state: State,
    shape: Shape,
    text: &[u8],
    place: Place,
) -> Result<(), AllocError>
    ensures { IfOk result (λ _. tokens.new ≡ tokens.old ++ token_list state shape text.now place) }
{
    match shape {
        Shape::Token(kind) => {
            let text = Text::from_bytes(alloc, text)?;
            tokens.push(Token {
                kind,
                text,
                place,
                first: state.context.is_line_start(),
                space: state.space,
            })?;
            Ok(())
        }
        _ => Ok(()),
    }
}

/// Cuts a file into its pieces, one after the other.
fn cut_file(alloc: Global, file: u32, bytes: &[u8]) -> Result<Tokens, Stop>
    requires { length bytes.now ≤ 2 ^ 20 }
    ensures ok { IfOk result (Lexes file bytes.now) }
    ensures refused { IfRefused result (Refuses file bytes.now) }
{
    let spliced = splice(alloc, bytes)?;
    let mut rest = spliced.as_slice();
    let mut cursor = Cursor::new(bytes);
    let mut state = State::start();
    let mut tokens = Tokens::new(alloc);
    while rest.len() > 0 {
        let place = cursor.place(file);
        let piece = match piece_at(state.context, rest) {
            None => return Err(refused(place, cause(rest))),
            Some(piece) => piece,
        };
        if piece.shape.is_past(tokens.as_slice().len()) {
            return Err(refused(place, too_many()));
        }
        let (text, more) = rest.split_at(piece.size);
        let good = legal_length(piece.shape, text);
        if good < text.len() {
            cursor.skip(good);
            return Err(refused(cursor.place(file), Refusal::BadByte));
        }
        add(alloc, &mut tokens, state, piece.shape, text, place)?;
        state = state.after(piece.shape, text);
        cursor.skip(piece.size);
        rest = more;
    }
    Ok(tokens)
}

/// The preprocessing tokens of a file, the `file`th of its unit, with their places in the file as
/// it is written. Source bytes are tab, LF, VT, FF and 0x20 to 0x7E; bytes from 0x80 stand in
/// comments and string literals alone.
///
/// # Errors
///
/// At the first place at which no token, comment or white space begins: `OpenComment` for a `/*`
/// without `*/`, `OpenLiteral` for a quote without a mate on its line, else `BadByte`. At a byte
/// that may not stand in the comment or token round it: `BadByte`. At the first token past
/// 131,072: `TooManyTokens`. The first of these places decides. `Memory`: want of memory.
pub fn lex(alloc: Global, file: u32, bytes: &[u8]) -> Result<Tokens, Stop>
    requires { length bytes.now ≤ 2 ^ 20 }
    ensures ok { IfOk result (Lexes file bytes.now) }
    ensures refused { IfRefused result (Refuses file bytes.now) }
    ensures given { Gives (file_tokens file bytes.now) result }
{
    cut_file(alloc, file, bytes)
}
