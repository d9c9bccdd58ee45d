//! What a declarator is made of, and how high it is (6.7.6).
ghost use Rattle.std.specs.Prelude.{◌≡◌, ◌+◌, ◌≤◌, cond, ℕ, List, [], ◌∷◌, ◌++◌, length, max, map, reverse, is_some, Some, None, IfOk};
ghost use Rattle.std.specs.Bool.{OnFalse};
ghost use Rattle.std.specs.Option.{option_map};
ghost use Rattle.c_layout.specs.DeclarationTrees.{name_view, suffix_view, declarator_layer_view, declarator_view};
ghost use Rattle.c_parser_declarations.specs.Grammar.Declarators.{named_height, stars_height, innermost_height, abstract_height, height_by, enclosed_by};
ghost use Rattle.c_parser_declarations.specs.Grammar.Findings.{is_empty, IsSomething, layer_of};
ghost use Rattle.c_parser_declarations.specs.Grammar.Answers.{as_parts, as_suffixes};
ghost use Rattle.c_parser_declarations.specs.Grammar.DeclaratorReaders as readers;
ghost use Rattle.c_parser_expression_grammar.specs.ReadingResults.{Reads};
ghost use Rattle.c_parser_tokens.specs.declared.terminals.Terminal.{Terminal};

use c_layout::{ArraySuffix, Declarator, DeclaratorLayer, Name};
use c_parser_expressions::{Parsed, Trouble, is_one_star, made};

/// The layers of a declarator, the innermost first, and its name, if it has one.
#[derive(Drop)]
pub struct DeclaratorParts {
    pub layers: Vec<DeclaratorLayer>,
    pub name: Option<Name>,
}

/// The brackets behind a declarator.
#[derive(Drop)]
pub struct Suffixes {
    pub arrays: Vec<ArraySuffix>,
    /// The greatest height of what stands before them and of their lengths.
    pub flat: u32,
    /// The height where each pair of brackets adds 1.
    pub climbed: u32,
}

/// The height behind one pair of brackets more, which is a production.
pub fn climb(climbed: u32, length: u32) -> Result<u32, Trouble>
    ensures ok { IfOk result (λ h. h ≡ max climbed length + 1) }
    ensures read { Reads result (λ h. h) (cond (readers.climbs (max climbed length)) (Some (max climbed length + 1)) None) }
{
    match climbed.max(length).checked_add(1) {
        Some(height) => Ok(height),
        None => Err(Trouble::Syntax),
    }
}

/// The height of a declarator with a name: its stars add 1 together.
fn named_height(stars: &[u32], climbed: u32, budget: u32) -> Result<u32, Trouble>
    ensures height { IfOk result (λ h. h ≡ named_height stars.now climbed) }
    ensures within { IfOk result (λ h. h ≤ budget) }
    ensures read { Reads result (λ h. h) (readers.named_height budget stars.now climbed) }
{
    if !stars.is_empty() {
        return made(budget, climbed);
    }
    if climbed <= budget {
        Ok(climbed)
    } else {
        Err(Trouble::Syntax)
    }
}

/// The height of stars alone: one without qualifiers adds nothing.
fn stars_height(stars: &[u32], budget: u32) -> Result<u32, Trouble>
    ensures height { IfOk result (λ h. h ≡ stars_height stars.now) }
    ensures within { IfOk result (λ h. h ≤ budget) }
    ensures read { Reads result (λ h. h) (readers.stars_height budget stars.now) }
{
    if is_one_star(stars) {
        return Ok(0);
    }
    made(budget, 0)
}

/// The height of an abstract declarator around nothing, with so many pairs of brackets.
fn innermost_height(stars: &[u32], pairs: usize, flat: u32, budget: u32) -> Result<u32, Trouble>
    ensures height { IfOk result (λ h. h ≡ innermost_height stars.now pairs flat) }
    ensures within { IfOk result (λ h. h ≤ budget) }
    ensures read { Reads result (λ h. h) (readers.innermost_height budget stars.now pairs flat) }
{
    if pairs == 0 {
        stars_height(stars, budget)
    } else {
        made(budget, flat)
    }
}

/// The height of a layer of an abstract declarator.
fn abstract_height(
    is_innermost: bool,
    stars: &[u32],
    pairs: usize,
    flat: u32,
    budget: u32,
) -> Result<u32, Trouble>
    ensures height { IfOk result (λ h. h ≡ abstract_height is_innermost stars.now pairs flat) }
    ensures within { IfOk result (λ h. h ≤ budget) }
    ensures read { Reads result (λ h. h) (cond is_innermost (readers.innermost_height budget stars.now pairs flat) (readers.above budget flat)) }
{
    if is_innermost {
        innermost_height(stars, pairs, flat, budget)
    } else {
        made(budget, flat)
    }
}

/// The height of a declarator in parentheses: around a name they are a production.
pub fn enclosed_height(is_named: bool, inside: u32, budget: u32) -> Result<u32, Trouble>
    ensures ok { IfOk result (λ h. h ≡ enclosed_by is_named inside) }
    ensures read { Reads result (λ h. h) (cond is_named (readers.above budget inside) (Some inside)) }
{
    if is_named {
        made(budget, inside)
    } else {
        Ok(inside)
    }
}

/// The height of a layer with stars and brackets around its inner parts.
fn layer_height(
    inside: &DeclaratorParts,
    stars: &[u32],
    suffixes: &Suffixes,
    budget: u32,
) -> Result<u32, Trouble>
    ensures height { IfOk result (λ h. h ≡ height_by (is_some inside.now.name) (is_empty (map declarator_layer_view inside.now.layers.items)) stars.now (length suffixes.now.arrays.items) suffixes.now.flat suffixes.now.climbed) }
    ensures within { IfOk result (λ h. h ≤ budget) }
    ensures read { Reads result (λ h. h) (readers.layer_height budget (option_map name_view inside.now.name) (reverse (map declarator_layer_view inside.now.layers.items)) stars.now (as_suffixes [] suffixes.now)) }
{
    if inside.name.is_some() {
        return named_height(stars, suffixes.climbed, budget);
    }
    let is_innermost = inside.layers.is_empty();
    abstract_height(
        is_innermost,
        stars,
        suffixes.arrays.len(),
        suffixes.flat,
        budget,
    )
}

/// Whether nothing stands in a layer: no name, no layer inside, no star and no brackets.
fn is_nothing(inside: &DeclaratorParts, stars: &[u32], suffixes: &Suffixes) -> bool
    ensures something { OnFalse result (IsSomething (map declarator_layer_view inside.now.layers.items) (is_some inside.now.name) (layer_of stars.now (map suffix_view suffixes.now.arrays.items))) }
    ensures read { result ≡ readers.is_nothing (option_map name_view inside.now.name) (reverse (map declarator_layer_view inside.now.layers.items)) stars.now (map suffix_view suffixes.now.arrays.items) }
{
    inside.name.is_none()
        && inside.layers.is_empty()
        && stars.is_empty()
        && suffixes.arrays.is_empty()
}

/// A declarator with one layer more around it.
pub fn layered(
    inside: DeclaratorParts,
    stars: Vec<u32>,
    suffixes: Suffixes,
    budget: u32,
) -> Result<Parsed<DeclaratorParts>, Trouble>
    ensures layers { IfOk result (λ n. map declarator_layer_view n.tree.layers.items ≡ map declarator_layer_view inside.layers.items ++ layer_of stars.items (map suffix_view suffixes.arrays.items) ∷ []) }
    ensures name { IfOk result (λ n. n.tree.name ≡ inside.name) }
    ensures something { IfOk result (λ n. IsSomething (map declarator_layer_view inside.layers.items) (is_some inside.name) (layer_of stars.items (map suffix_view suffixes.arrays.items))) }
    ensures height { IfOk result (λ n. n.height ≡ height_by (is_some inside.name) (is_empty (map declarator_layer_view inside.layers.items)) stars.items (length suffixes.arrays.items) suffixes.flat suffixes.climbed) }
    ensures within { IfOk result (λ n. n.height ≤ budget) }
    ensures read { (parts : ℕ) (before rest : List Terminal) → Reads result (as_parts rest) (readers.layered budget stars.items (readers.parts_of (reverse (map declarator_layer_view inside.layers.items)) (option_map name_view inside.name) parts before) (as_suffixes rest suffixes)) }
{
    if is_nothing(&inside, stars.as_slice(), &suffixes) {
        return Err(Trouble::Syntax);
    }
    let height = layer_height(&inside, stars.as_slice(), &suffixes, budget)?;
    let DeclaratorParts { mut layers, name } = inside;
    layers.push(DeclaratorLayer {
        stars,
        arrays: suffixes.arrays,
    })?;
    Ok(Parsed {
        tree: DeclaratorParts { layers, name },
        height,
    })
}

/// The declarator of these parts.
#[tactic(auto, using(crate::proofs::grammar::Layers::map_reverse))]
pub fn declarator_of(parts: Parsed<DeclaratorParts>) -> Parsed<Declarator>
    ensures tree { declarator_view result.tree ≡ record { layers = reverse (map declarator_layer_view parts.tree.layers.items); name = option_map name_view parts.tree.name } }
    ensures height { result.height ≡ parts.height }
{
    let DeclaratorParts { mut layers, name } = parts.tree;
    layers.reverse();
    Parsed {
        tree: Declarator { layers, name },
        height: parts.height,
    }
}
