//! The subobjects of an aggregate in order (6.7.9p17 of ISO/IEC 9899:2011).
ghost use Rattle.std.specs.Prelude.{◌≡◌, IfOk, [], ◌∷◌, option_map};
ghost use Rattle.c_layout.specs.Types.{view};
ghost use Rattle.c_types_scopes.specs.Known.{known};
ghost use Rattle.c_types_initializers.specs.Subobjects as spec;
ghost use Rattle.c_types_initializers.specs.Subobjects.{subobject_view, open_view, cursor_view};

use c_layout::CType;
use c_types_scopes::Context;
use cc_base::Memory;

/// A subobject: its type and its offset.
#[derive(Drop)]
pub struct Subobject {
    pub ctype: CType,
    pub offset: u64,
}

/// An aggregate, and how many of its elements or members are passed.
#[derive(Drop)]
pub struct OpenAggregate {
    ctype: CType,
    offset: u64,
    passed: u64,
}

/// The open aggregates, the innermost last.
#[derive(Drop)]
pub struct Cursor {
    open: Vec<OpenAggregate>,
}

/// The subobject of an array with this number.
fn element(
    cx: &Context,
    element_type: &CType,
    count: u64,
    offset: u64,
    number: u64,
) -> Result<Option<Subobject>, Memory>
    ensures { IfOk result (λ s. option_map subobject_view s ≡ spec.element (known cx.now) (view element_type.now) count offset number) }
{
    if count != 0 && number >= count {
        return Ok(None);
    }
    let Some(size) = cx.size_of(element_type) else {
        return Ok(None);
    };
    let distance = size.checked_mul(number).ok_or(Memory)?;
    Ok(Some(Subobject {
        ctype: element_type.copy(cx.alloc)?,
        offset: offset.checked_add(distance).ok_or(Memory)?,
    }))
}

/// The member of a struct with this number.
fn member(cx: &Context, owner: u32, offset: u64, number: u64) -> Result<Option<Subobject>, Memory>
    ensures { IfOk result (λ s. option_map subobject_view s ≡ spec.member (known cx.now) owner offset number) }
{
    let Ok(number) = usize::try_from(number) else {
        return Ok(None);
    };
    let Some(found) = cx.types.structs.items.get(owner as usize) else {
        return Ok(None);
    };
    let Some(field) = found.fields.get(number) else {
        return Ok(None);
    };
    Ok(Some(Subobject {
        ctype: field.ctype.copy(cx.alloc)?,
        offset: offset.checked_add(field.offset).ok_or(Memory)?,
    }))
}

/// The next subobject of an aggregate; None where all are passed.
fn following(cx: &Context, aggregate: &OpenAggregate) -> Result<Option<Subobject>, Memory>
    ensures { IfOk result (λ s. option_map subobject_view s ≡ spec.following (known cx.now) (open_view aggregate.now)) }
{
    match &aggregate.ctype {
        CType::Array(inner, count) => {
            element(cx, inner, *count, aggregate.offset, aggregate.passed)
        }
        CType::Struct(owner) => member(cx, *owner, aggregate.offset, aggregate.passed),
        CType::Int(_) => Ok(None),
        CType::Pointer(_) => Ok(None),
        CType::Void => Ok(None),
    }
}

impl OpenAggregate {
    /// The next subobject, which is passed then; None where all are.
    fn advance(&mut self, cx: &Context) -> Result<Option<Subobject>, Memory>
        ensures found { IfOk result (λ s. option_map subobject_view s ≡ spec.following (known cx.now) (open_view self.old)) }
        ensures after { IfOk result (λ _. open_view self.new ≡ spec.advanced (known cx.now) (open_view self.old)) }
    {
        let next = following(cx, self)?;
        if next.is_some() {
            self.passed = self.passed.saturating_add(1);
        }
        Ok(next)
    }
}

impl Cursor {
    /// A cursor before the first subobject of an aggregate.
    pub fn new(cx: &Context, ctype: &CType, offset: u64) -> Result<Cursor, Memory>
        ensures { IfOk result (λ c. cursor_view c ≡ spec.entered (spec.subobject (view ctype.now) offset) ∷ []) }
    {
        let mut open = Vec::new(cx.alloc);
        open.push(OpenAggregate {
            ctype: ctype.copy(cx.alloc)?,
            offset,
            passed: 0,
        })?;
        Ok(Cursor { open })
    }

    /// Goes into a subobject.
    #[tactic(auto, using(crate::proofs::Cursors::innermost))]
    pub fn enter(&mut self, subobject: Subobject) -> Result<(), Memory>
        ensures { IfOk result (λ _. cursor_view self.new ≡ spec.entered (subobject_view subobject) ∷ cursor_view self.old) }
    {
        let Subobject { ctype, offset } = subobject;
        self.open.push(OpenAggregate {
            ctype,
            offset,
            passed: 0,
        })?;
        Ok(())
    }

    /// The next subobject of the innermost aggregate, which is passed then; None where all are.
    #[tactic(auto, using(crate::proofs::Cursors::innermost, crate::proofs::Cursors::none_open))]
    fn step(&mut self, cx: &Context) -> Result<Option<Subobject>, Memory>
        ensures { IfOk result (λ s. (option_map subobject_view s, cursor_view self.new) ≡ spec.step (known cx.now) (cursor_view self.old)) }
    {
        match self.open.pop() {
            Some(mut aggregate) => {
                let next = aggregate.advance(cx)?;
                self.open.push(aggregate)?;
                Ok(next)
            }
            None => Ok(None),
        }
    }

    /// Leaves the innermost aggregate.
    #[tactic(auto, using(crate::proofs::Cursors::around_last, crate::proofs::Cursors::none_open))]
    fn leave(&mut self)
        ensures { cursor_view self.new ≡ spec.around (cursor_view self.old) }
    {
        match self.open.pop() {
            Some(_innermost) => {}
            None => {}
        }
    }

    /// The next subobject, after leaving the aggregates that are passed; None where the outermost
    /// one is.
    pub fn next(&mut self, cx: &Context) -> Result<Option<Subobject>, Memory>
        ensures { IfOk result (λ s. (option_map subobject_view s, cursor_view self.new) ≡ spec.next (known cx.now) (cursor_view self.old)) }
    {
        for _level in 0..self.open.len().saturating_add(1) {
            let next = self.step(cx)?;
            if next.is_some() {
                return Ok(next);
            }
            if self.open.as_slice().len() <= 1 {
                return Ok(None);
            }
            self.leave();
        }
        Err(Memory)
    }

    /// How many subobjects of the outermost aggregate are passed.
    #[tactic(auto, using(crate::proofs::Cursors::outermost, crate::proofs::Cursors::no_outermost))]
    pub fn passed(&self) -> u64
        ensures { result ≡ spec.passed (cursor_view self.now) }
    {
        match self.open.first() {
            Some(aggregate) => aggregate.passed,
            None => 0,
        }
    }
}
