//! Layers of abstract declarators put together (6.7.7).
ghost use Rattle.std.specs.Prelude.{◌≡◌, ◌+◌, ◌≤◌, ◌&&◌, false, List, [], ◌∷◌, ◌++◌, max, map, reverse, IfOk, IfErr};
ghost use Rattle.c_layout.specs.SyntaxTrees.{trees, tree_of, layer_view, type_name_view};
ghost use Rattle.c_parser_expression_grammar.specs.Findings.{lengths_of, brackets_of, layer_of, layer_height, is_empty, IsSomething};
ghost use Rattle.c_parser_expression_grammar.specs.ReadingResults.{Reads, arrays_got, layers_got};
ghost use Rattle.c_parser_expression_grammar.specs.TypeNameReaders.{layered, declared};
ghost use Rattle.c_parser_expression_grammar.specs.TypeNames.{is_lone_star, words_height};
ghost use Rattle.c_parser_tokens.specs.declared.terminals.Terminal.{Terminal};

use crate::pointer_stars::is_one_star;
use c_layout::{AbstractLayer, Brackets, Expr, TypeName, TypeNameWord};
use c_parser_expression_grammar::{
    AbstractParts, ArrayLength, ArrayParts, Parsed, Trouble, TypeNameParts, add_expression, made,
};
use std::alloc::{AllocError, Global};

/// Adds a length, where one is given.
fn add_length(lengths: &mut Vec<Expr>, length: Option<Box<Expr>>) -> Result<(), AllocError>
    ensures { IfOk result (λ _. map tree_of lengths.new.items ≡ map tree_of lengths.old.items ++ lengths_of length) }
{
    match length {
        Some(length) => add_expression(lengths, length),
        None => Ok(()),
    }
}

/// Adds a pair of brackets.
pub fn add_brackets(parts: &mut ArrayParts, pair: ArrayLength) -> Result<(), AllocError>
    ensures arrays { IfOk result (λ _. parts.new.arrays.items ≡ parts.old.arrays.items ++ brackets_of pair ∷ []) }
    ensures lengths { IfOk result (λ _. map tree_of parts.new.lengths.items ≡ map tree_of parts.old.lengths.items ++ lengths_of pair.length) }
{
    let ArrayLength { place, length } = pair;
    let has_length = length.is_some();
    parts.arrays.push(Brackets { place, has_length })?;
    add_length(&mut parts.lengths, length)
}

/// Adds lengths at the end of others.
fn add_lengths(lengths: &mut Vec<Expr>, more: Vec<Expr>) -> Result<(), AllocError>
    ensures { IfOk result (λ _. map tree_of lengths.new.items ≡ map tree_of lengths.old.items ++ map tree_of more.items) }
{
    for length in more {
        lengths.push(length)?;
    }
    Ok(())
}

/// The height of a layer around its inner parts: one star alone adds nothing.
fn layer_height(
    is_innermost: bool,
    layer: &AbstractLayer,
    parts: u32,
    budget: u32,
) -> Result<u32, Trouble>
    ensures height { IfOk result (λ h. h ≡ layer_height is_innermost (layer_view layer.now) parts) }
    ensures within { IfOk result (λ h. h ≤ budget) }
    ensures refused { IfErr result (λ e. (is_innermost && is_lone_star (layer_view layer.now) ≡ false) × (budget ≤ parts)) }
{
    if is_innermost && layer.arrays.is_empty() && is_one_star(layer.stars.as_slice()) {
        return Ok(0);
    }
    made(budget, parts)
}

/// An abstract declarator with one layer more around it. A layer around nothing has stars or brackets.
pub fn layered(
    stars: Vec<u32>,
    nested: Parsed<AbstractParts>,
    arrays: Parsed<ArrayParts>,
    budget: u32,
) -> Result<Parsed<AbstractParts>, Trouble>
    ensures layers { IfOk result (λ n. map layer_view n.tree.layers.items ≡ map layer_view nested.tree.layers.items ++ layer_of stars.items arrays.tree.arrays.items ∷ []) }
    ensures lengths { IfOk result (λ n. map tree_of n.tree.lengths.items ≡ map tree_of nested.tree.lengths.items ++ map tree_of arrays.tree.lengths.items) }
    ensures something { IfOk result (λ n. IsSomething (map layer_view nested.tree.layers.items) (layer_of stars.items arrays.tree.arrays.items)) }
    ensures height { IfOk result (λ n. n.height ≡ layer_height (is_empty (map layer_view nested.tree.layers.items)) (layer_of stars.items arrays.tree.arrays.items) (max nested.height arrays.height)) }
    ensures read { (inside rest : List Terminal) → Reads result (λ n. layers_got n.tree n.height rest) (layered budget stars.items (layers_got nested.tree nested.height inside) (arrays_got arrays.tree arrays.height rest)) }
{
    let Parsed {
        tree: AbstractParts {
            mut layers,
            mut lengths,
        },
        height: inside,
    } = nested;
    let Parsed {
        tree: ArrayParts {
            arrays,
            lengths: more,
        },
        height: beside,
    } = arrays;
    let layer = AbstractLayer { stars, arrays };
    let is_innermost = layers.is_empty();
    if is_innermost && layer.stars.is_empty() && layer.arrays.is_empty() {
        return Err(Trouble::Syntax);
    }
    let height = layer_height(is_innermost, &layer, inside.max(beside), budget)?;
    layers.push(layer)?;
    add_lengths(&mut lengths, more)?;
    Ok(Parsed {
        tree: AbstractParts { layers, lengths },
        height,
    })
}

/// A type name without a declarator.
pub fn plain_name(
    alloc: Global,
    words: Parsed<Vec<TypeNameWord>>,
) -> Result<Parsed<Box<TypeNameParts>>, Trouble>
    ensures name { IfOk result (λ n. type_name_view n.tree.value.name ≡ record { words = words.tree.items; layers = [] }) }
    ensures lengths { IfOk result (λ n. map tree_of n.tree.value.lengths.items ≡ []) }
    ensures height { IfOk result (λ n. n.height ≡ words.height) }
    ensures memory { IfErr result (λ e. e ≡ Trouble.Memory) }
{
    let name = TypeName {
        words: words.tree,
        layers: Vec::new(alloc),
    };
    let parts = TypeNameParts {
        name,
        lengths: Vec::new(alloc),
    };
    Ok(Parsed {
        tree: Box::new(alloc, parts)?,
        height: words.height,
    })
}

/// A type name with a declarator.
#[tactic(auto, using(crate::proofs::Layers::map_reverse))]
pub fn declared_name(
    alloc: Global,
    words: Parsed<Vec<TypeNameWord>>,
    declarator: Parsed<AbstractParts>,
    budget: u32,
) -> Result<Parsed<Box<TypeNameParts>>, Trouble>
    ensures name { IfOk result (λ n. type_name_view n.tree.value.name ≡ record { words = words.tree.items; layers = reverse (map layer_view declarator.tree.layers.items) }) }
    ensures lengths { IfOk result (λ n. map tree_of n.tree.value.lengths.items ≡ map tree_of declarator.tree.lengths.items) }
    ensures height { IfOk result (λ n. n.height ≡ max words.height declarator.height + 1) }
    ensures read { words.height ≡ words_height words.tree.items → (rest : List Terminal) → Reads result (λ n. record { name = type_name_view n.tree.value.name; lengths = trees (map tree_of n.tree.value.lengths.items); height = n.height; rest = rest }) (declared budget words.tree.items (layers_got declarator.tree declarator.height rest)) }
{
    let height = made(budget, words.height.max(declarator.height))?;
    let AbstractParts {
        mut layers,
        lengths,
    } = declarator.tree;
    layers.reverse();
    let name = TypeName {
        words: words.tree,
        layers,
    };
    Ok(Parsed {
        tree: Box::new(alloc, TypeNameParts { name, lengths })?,
        height,
    })
}
