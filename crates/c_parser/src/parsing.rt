//! Parses a unit.
ghost use Rattle.std.specs.Prelude.{◌≡◌, [], map, IfOk, IfErr};
ghost use Rattle.c_layout.specs.DeclarationTrees.{external_tree, unit_tree};
ghost use Rattle.c_parser.specs.Externals.{in_force, IsPiece, ArePieces, IsUnit};
ghost use Rattle.c_parser.specs.Refusals.{Refuses};
ghost use Rattle.c_parser_tokens.specs.Classes.{classified};
ghost use Rattle.c_parser_expression_grammar.specs.ReadingResults.{Reads};
ghost use Rattle.c_parser.specs.UnitReaders as readers;
ghost use Rattle.c_parser.specs.UnitResults.{stop_of, ReadsOrStops, StopsUnread};

use crate::external_declarations::external;
use crate::pieces::piece_length;
use c_layout::{External, Tree7, Unit7};
use c_parser_expressions::{GREATEST_HEIGHT, Reader, Trouble, TypedefNames};
use c_parser_tokens::{Terminal, classify};
use cc_base::{Fault, Place, Refusal, Stop};
use std::alloc::Global;

/// The external declaration that a piece is.
fn piece_tree(
    alloc: Global,
    typedefs: &mut TypedefNames,
    piece: &[Terminal],
) -> Result<External, Trouble>
    ensures piece { IfOk result (λ e. IsPiece typedefs.old (external_tree e) piece.now) }
    ensures names { IfOk result (λ e. typedefs.new ≡ in_force typedefs.old (external_tree e)) }
    ensures read { Reads result external_tree (readers.piece typedefs.old piece.now) }
{
    let mut reader = Reader::new(piece);
    let found = external(alloc, typedefs, &mut reader, GREATEST_HEIGHT)?;
    if reader.left() == 0 {
        Ok(found.tree)
    } else {
        Err(Trouble::Syntax)
    }
}

/// What trouble with a piece means for the unit.
fn stop_of(trouble: Trouble, place: Place) -> Stop
    ensures { result ≡ stop_of trouble place }
{
    match trouble {
        Trouble::Syntax => Stop::Refused(Fault {
            place,
            refusal: Refusal::Syntax,
        }),
        Trouble::Memory => Stop::Memory,
    }
}

/// The external declaration that the piece at a place is.
fn external_at(
    alloc: Global,
    typedefs: &mut TypedefNames,
    piece: &[Terminal],
    place: Place,
) -> Result<External, Stop>
    ensures piece { IfOk result (λ e. IsPiece typedefs.old (external_tree e) piece.now) }
    ensures names { IfOk result (λ e. typedefs.new ≡ in_force typedefs.old (external_tree e)) }
    ensures read { ReadsOrStops external_tree result place (readers.piece typedefs.old piece.now) }
{
    match piece_tree(alloc, typedefs, piece) {
        Ok(found) => Ok(found),
        Err(trouble) => Err(stop_of(trouble, place)),
    }
}

/// The external declarations that the pieces of these terminals are.
fn externals(alloc: Global, terminals: &[Terminal]) -> Result<Vec<External>, Stop>
    ensures found { IfOk result (λ found. ArePieces (map external_tree found.items) [] terminals.now []) }
    ensures refused { IfErr result (StopsUnread terminals.now) }
{
    let mut found = Vec::new(alloc);
    let mut typedefs = TypedefNames::new(alloc);
    let mut rest = terminals;
    while let [first, ..] = rest {
        let (piece, behind) = rest.split_at(piece_length(rest));
        found.push(external_at(alloc, &mut typedefs, piece, first.place)?)?;
        rest = behind;
    }
    Ok(found)
}

/// The tree of a unit.
///
/// # Errors
///
/// `NumberForm` at the first number, character constant or string literal of the unit whose form is
/// not in; else `Unsupported` at its first word or punctuator that is left out of the language; else
/// `Syntax` at the first token of the first piece that is no external declaration of a height of at
/// most 256; or want of memory.
#[tactic(auto, using(crate::proofs::Refusing::by_tokens, crate::proofs::Refusing::by_piece))]
pub fn parse(alloc: Global, unit: &Unit7) -> Result<Tree7, Stop>
    ensures found { IfOk result (λ tree. IsUnit unit.now.model unit.now.tokens (unit_tree tree)) }
    ensures refused { IfErr result (Refuses (classified unit.now.model unit.now.tokens)) }
{
    let terminals = classify(alloc, unit)?;
    let externals = externals(alloc, terminals.as_slice())?;
    Ok(Tree7 { externals })
}
