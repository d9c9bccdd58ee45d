//! Objects that are one scalar and nothing else.
ghost use Rattle.std.specs.Prelude.{◌≡◌, Some, slice_get};
ghost use Rattle.c_layout.specs.Leaves.{class_of};
ghost use Rattle.cfg.specs.BaseShapes.{same_truth};
ghost use Rattle.cfg.specs.WellFormed.{is_declared};
ghost use Rattle.memory_model.specs.Memory.ScalarSizes as sizes;
ghost use Rattle.analysis_preconditions.specs.Objects.ScalarTests as spec;

use c_layout::{BaseInfo, BaseKind, Class, Leaf, Model};
use cfg::Scalar;
use cfg_checks::class_of;

/// The size in bytes of a scalar of a class under a model.
fn class_size(model: &Model, class: Class) -> u8
    ensures { result ≡ sizes.class_bytes model.now class }
{
    match class {
        Class::Char => 1,
        Class::Short => 2,
        Class::Int => { if model.int == 2 { 2 } else { 4 } }
        Class::Long => { if model.long == 4 { 4 } else { 8 } }
        Class::LongLong => 8,
        Class::Pointer => { if model.pointer == 4 { 4 } else { 8 } }
    }
}

fn class_number(class: Class) -> u8
    ensures { result ≡ sizes.class_number class }
{
    match class {
        Class::Char => 0,
        Class::Short => 1,
        Class::Int => 2,
        Class::Long => 3,
        Class::LongLong => 4,
        Class::Pointer => 5,
    }
}

fn same_class(a: Class, b: Class) -> bool
    ensures { result ≡ sizes.same_class a b }
{
    class_number(a) == class_number(b)
}

fn is_pointer(class: Class) -> bool
    ensures { result ≡ sizes.is_pointer class }
{
    class_number(class) == 5
}

fn same_truth(a: bool, b: bool) -> bool
    ensures { result ≡ same_truth a b }
{
    a == b
}

/// Whether a base is of an object that is declared.
fn is_declared(kind: BaseKind) -> bool
    ensures { result ≡ is_declared (Some kind) }
{
    match kind {
        BaseKind::Static | BaseKind::Automatic | BaseKind::Literal => true,
        BaseKind::Newest | BaseKind::Older => false,
    }
}

fn is_alone(leaf: &Leaf) -> bool
    ensures { result ≡ spec.is_alone leaf.now }
{
    leaf.offset == 0 && leaf.count == 1
}

/// Whether a leaf is a scalar of the kind.
fn is_leaf_of(model: &Model, kind: Scalar, leaf: &Leaf) -> bool
    ensures { result ≡ spec.is_leaf_of model.now kind leaf.now }
{
    match kind {
        Scalar::Int(kind) => {
            same_class(leaf.class, class_of(kind))
                && (same_truth(leaf.signed, kind.signed)
                    && kind.bytes == class_size(model, leaf.class))
        }
        Scalar::Pointer => same_class(leaf.class, Class::Pointer) && !leaf.signed,
    }
}

/// Whether an object is of its one leaf's size.
fn is_whole_leaf(model: &Model, info: &BaseInfo, leaf: &Leaf) -> bool
    ensures { result ≡ spec.is_whole_leaf model.now info.now leaf.now }
{
    is_declared(info.kind)
        && (is_alone(leaf) && info.size == u64::from(class_size(model, leaf.class)))
}

fn is_scalar_of(model: &Model, kind: Scalar, info: &BaseInfo, leaves: &[Leaf]) -> bool
    ensures { result ≡ spec.is_scalar_of model.now kind info.now leaves.now }
{
    match leaves {
        [leaf] => is_whole_leaf(model, info, leaf) && is_leaf_of(model, kind, leaf),
        _ => false,
    }
}

/// Whether a base is one scalar of the kind.
pub fn is_scalar_object(model: &Model, bases: &[BaseInfo], base: u32, kind: Scalar) -> bool
    ensures { result ≡ spec.is_scalar_object model.now kind (slice_get bases.now base) }
{
    match bases.get(base as usize) {
        None => false,
        Some(info) => is_scalar_of(model, kind, info, info.shape.cells.as_slice()),
    }
}

fn is_integer_of(model: &Model, info: &BaseInfo, leaves: &[Leaf]) -> bool
    ensures { result ≡ spec.is_integer_of model.now info.now leaves.now }
{
    match leaves {
        [leaf] => is_whole_leaf(model, info, leaf) && !is_pointer(leaf.class),
        _ => false,
    }
}

/// Whether a base is one integer.
pub fn is_integer_object(model: &Model, bases: &[BaseInfo], base: u32) -> bool
    ensures { result ≡ spec.is_integer_object model.now (slice_get bases.now base) }
{
    match bases.get(base as usize) {
        None => false,
        Some(info) => is_integer_of(model, info, info.shape.cells.as_slice()),
    }
}
