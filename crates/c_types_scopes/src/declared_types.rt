//! Types with what their declarations say beside them.
ghost use Rattle.std.specs.Prelude.{◌≡◌, IfOk, length, map};
ghost use Rattle.c_layout.specs.Types.{view};
ghost use Rattle.c_types_scopes.specs.DeclaredTypes as spec;

use c_layout::CType;
use std::alloc::{AllocError, Global};

/// A type, and the enumerated type that its declaration names, if that is all of it.
#[derive(Drop)]
pub struct DeclaredType {
    pub ctype: CType,
    pub enumeration: Option<u32>,
}

impl DeclaredType {
    /// A type that names no enumerated type.
    pub fn plain(ctype: CType) -> DeclaredType
        ensures { spec.declared_view result ≡ spec.plain (view ctype) }
    {
        DeclaredType {
            ctype,
            enumeration: None,
        }
    }

    /// The same type.
    pub fn copy(&self, alloc: Global) -> Result<DeclaredType, AllocError>
        ensures { IfOk result (λ d. spec.declared_view d ≡ spec.declared_view self.now) }
    {
        Ok(DeclaredType {
            ctype: self.ctype.copy(alloc)?,
            enumeration: self.enumeration,
        })
    }
}

/// An object that was declared: its type, its number among the objects of the unit where the unit
/// defines it, and whether a declaration had an initializer.
#[derive(Drop)]
pub struct ObjectDeclaration {
    pub declared: DeclaredType,
    pub number: Option<u32>,
    pub initialized: bool,
}

/// A function's type, its number among the functions of the unit where the unit defines it, and
/// whether its definition was met.
#[derive(Drop)]
pub struct Signature {
    pub result: DeclaredType,
    pub parameters: Vec<CType>,
    pub number: Option<u32>,
    pub is_defined: bool,
}

/// The same types.
pub fn copied_types(alloc: Global, types: &[CType]) -> Result<Vec<CType>, AllocError>
    ensures { IfOk result (λ made. map view made.items ≡ map view types.now) }
{
    let mut made = Vec::new(alloc);
    for t in types {
        made.push(t.copy(alloc)?)?;
    }
    Ok(made)
}

impl Signature {
    /// Whether results and parameters are the same.
    pub fn is_same(&self, result_type: &CType, parameters: &[CType]) -> bool
        ensures { result ≡ spec.is_same_signature (spec.signature_view self.now) (view result_type.now) (map view parameters.now) }
    {
        if self.result.ctype.is_same(result_type) {
            are_same(self.parameters.as_slice(), parameters)
        } else {
            false
        }
    }
}

/// Whether each type of a list is that at its place in another one.
#[tactic(auto, unfolding(crate::specs::DeclaredTypes::each_same))]
fn each_same(left: &[CType], right: &[CType]) -> bool
    requires { length left.now ≡ length right.now }
    ensures { result ≡ spec.each_same (map view left.now) (map view right.now) }
{
    for i in 0..left.len() {
        if !left[i].is_same(&right[i]) {
            return false;
        }
    }
    true
}

/// Whether two lists have the same types.
fn are_same(left: &[CType], right: &[CType]) -> bool
    ensures { result ≡ spec.same_types (map view left.now) (map view right.now) }
{
    if left.len() == right.len() {
        each_same(left, right)
    } else {
        false
    }
}
