//! Operations put in at a call: their temporaries are counted from the call's first one.
ghost use Rattle.std.specs.Prelude.{◌≡◌, IfOk, map};
ghost use Rattle.std.specs.Option.{option_map};
ghost use Rattle.lower_templates.specs.Worklist.Acts.{act};
ghost use Rattle.lower.specs.Inlining.MovedActs as spec;

use c_layout::LibFn;
use cc_base::Text;
use cfg::{Amount, Operation};
use lower_templates::worklist::behind;
use std::alloc::{AllocError, Global};

/// The number of the template's base that an operation names.
pub fn own_base(operation: &Operation) -> Option<u32>
    ensures { result ≡ spec.own_base (act operation.now) }
{
    match operation {
        Operation::Constant(_, _, _) => None,
        Operation::Address(_, base, _) => Some(*base),
        Operation::Load(_, _, _) => None,
        Operation::Store(_, _, _, _) => None,
        Operation::Copy(_, _, _) => None,
        Operation::Narrow(_, _, _, _) => None,
        Operation::Shift(_, _, _, _, _) => None,
        Operation::Binary(_, _, _, _, _) => None,
        Operation::Unary(_, _, _, _) => None,
        Operation::Compare(_, _, _, _) => None,
        Operation::Not(_, _, _) => None,
        Operation::Difference(_, _, _, _) => None,
        Operation::ComparePointers(_, _, _, _) => None,
        Operation::Convert(_, _, _, _) => None,
        Operation::Library(_, _, _, base, _) => *base,
        Operation::Enter(base) => Some(*base),
        Operation::Leave(base) => Some(*base),
        Operation::Forget(base) => Some(*base),
        Operation::Clear(base) => Some(*base),
        Operation::Spell(base, _, _, _) => Some(*base),
        Operation::Jump => None,
        Operation::Branch(_, _) => None,
        Operation::Switch(_, _) => None,
        Operation::ReadLine(_, _, _, _) => None,
        Operation::Stop => None,
    }
}

/// How far temporaries are moved, and the base that stands for the operation's own one.
#[derive(Clone, Copy)]
pub struct Shifted {
    pub depth: u32,
    pub base: u32,
}

impl Shifted {
    fn temp(self, temp: u32) -> u32
        ensures { result ≡ spec.temp self.depth temp }
    {
        behind(temp, self.depth)
    }

    fn amount(self, amount: Amount) -> Amount
        ensures { result ≡ spec.amount_moved self.depth amount }
    {
        match amount {
            Amount::Temp(temp) => Amount::Temp(self.temp(temp)),
            Amount::One => Amount::One,
        }
    }

    fn kept(self, kept: Option<(u32, u32)>) -> Option<(u32, u32)>
        ensures { result ≡ spec.kept_moved self.depth kept }
    {
        match kept {
            Some((to, from)) => Some((self.temp(to), self.temp(from))),
            None => None,
        }
    }

    fn result(self, temp: Option<u32>) -> Option<u32>
        ensures { result ≡ option_map (spec.temp self.depth) temp }
    {
        match temp {
            Some(temp) => Some(self.temp(temp)),
            None => None,
        }
    }

    fn named(self, base: Option<u32>) -> Option<u32>
        ensures { result ≡ spec.named self.base base }
    {
        match base {
            Some(_) => Some(self.base),
            None => None,
        }
    }

    fn temps(self, alloc: Global, temps: &[u32]) -> Result<Vec<u32>, AllocError>
        ensures { IfOk result (λ v. v.items ≡ map (spec.temp self.depth) temps.now) }
    {
        let mut list = Vec::new(alloc);
        for temp in temps {
            list.push(self.temp(*temp))?;
        }
        Ok(list)
    }

    /// A library call, moved.
    fn library(
        self,
        alloc: Global,
        to: Option<u32>,
        function: LibFn,
        arguments: &[u32],
        base: Option<u32>,
        size: Option<u64>,
    ) -> Result<Operation, AllocError>
        ensures { IfOk result (λ o. act o ≡ spec.library self.depth self.base to function arguments.now base size) }
    {
        let arguments = self.temps(alloc, arguments)?;
        let (to, base) = (self.result(to), self.named(base));
        Ok(Operation::Library(to, function, arguments, base, size))
    }

    /// The characters of a literal, in the own base.
    fn spell(
        self,
        alloc: Global,
        offset: u64,
        room: u64,
        text: &Text,
    ) -> Result<Operation, AllocError>
        ensures { IfOk result (λ o. act o ≡ spec.spelled self.base offset room text.now) }
    {
        let text = text.copy(alloc)?;
        Ok(Operation::Spell(self.base, offset, room, text))
    }

    /// An operation on an object, moved.
    fn on_object(self, alloc: Global, operation: &Operation) -> Result<Operation, AllocError>
        ensures { IfOk result (λ o. act o ≡ spec.moved self.depth self.base (act operation.now)) }
    {
        match operation {
            Operation::Enter(_) => Ok(Operation::Enter(self.base)),
            Operation::Leave(_) => Ok(Operation::Leave(self.base)),
            Operation::Forget(_) => Ok(Operation::Forget(self.base)),
            Operation::Clear(_) => Ok(Operation::Clear(self.base)),
            Operation::Spell(_, offset, room, text) => self.spell(alloc, *offset, *room, text),
            _ => Err(AllocError),
        }
    }

    /// An operation on pointers and what they point to, moved.
    fn on_pointers(self, operation: &Operation) -> Result<Operation, AllocError>
        ensures { IfOk result (λ o. act o ≡ spec.moved self.depth self.base (act operation.now)) }
    {
        match operation {
            Operation::Address(to, _, offset) => Ok(Operation::Address(
                self.temp(*to),
                self.base,
                *offset,
            )),
            Operation::Load(to, from, kind) => Ok(Operation::Load(
                self.temp(*to),
                self.temp(*from),
                *kind,
            )),
            Operation::Store(to, from, kind, kept) => {
                Ok(Operation::Store(self.temp(*to), self.temp(*from), *kind, self.kept(*kept)))
            }
            Operation::Copy(to, from, number) => Ok(Operation::Copy(
                self.temp(*to),
                self.temp(*from),
                *number,
            )),
            Operation::Narrow(to, from, offset, size) => {
                Ok(Operation::Narrow(self.temp(*to), self.temp(*from), *offset, *size))
            }
            _ => Err(AllocError),
        }
    }

    /// An operation that computes with pointers, moved.
    fn with_pointers(self, operation: &Operation) -> Result<Operation, AllocError>
        ensures { IfOk result (λ o. act o ≡ spec.moved self.depth self.base (act operation.now)) }
    {
        match operation {
            Operation::Shift(to, from, by, size, backward) => {
                let (to, from, by) = (self.temp(*to), self.temp(*from), self.amount(*by));
                Ok(Operation::Shift(to, from, by, *size, *backward))
            }
            Operation::Difference(to, left, right, size) => {
                let (to, left, right) = (self.temp(*to), self.temp(*left), self.temp(*right));
                Ok(Operation::Difference(to, left, right, *size))
            }
            Operation::ComparePointers(to, rel, left, right) => {
                let (to, left, right) = (self.temp(*to), self.temp(*left), self.temp(*right));
                Ok(Operation::ComparePointers(to, *rel, left, right))
            }
            _ => Err(AllocError),
        }
    }

    /// An operation on numbers, moved.
    fn on_numbers(self, operation: &Operation) -> Result<Operation, AllocError>
        ensures { IfOk result (λ o. act o ≡ spec.moved self.depth self.base (act operation.now)) }
    {
        match operation {
            Operation::Constant(to, n, kind) => Ok(Operation::Constant(self.temp(*to), *n, *kind)),
            Operation::Binary(to, op, left, right, kind) => {
                let (to, left, right) = (self.temp(*to), self.temp(*left), self.amount(*right));
                Ok(Operation::Binary(to, *op, left, right, *kind))
            }
            Operation::Unary(to, op, from, kind) => {
                Ok(Operation::Unary(self.temp(*to), *op, self.temp(*from), *kind))
            }
            Operation::Compare(to, rel, left, right) => {
                Ok(Operation::Compare(self.temp(*to), *rel, self.temp(*left), self.temp(*right)))
            }
            Operation::Not(to, from, kind) => Ok(Operation::Not(
                self.temp(*to),
                self.temp(*from),
                *kind,
            )),
            Operation::Convert(to, from, old, new) => {
                Ok(Operation::Convert(self.temp(*to), self.temp(*from), *old, *new))
            }
            _ => Err(AllocError),
        }
    }

    /// An operation that ends its block, moved.
    fn at_end(self, operation: &Operation) -> Result<Operation, AllocError>
        ensures { IfOk result (λ o. act o ≡ spec.moved self.depth self.base (act operation.now)) }
    {
        match operation {
            Operation::Jump => Ok(Operation::Jump),
            Operation::Branch(from, kind) => Ok(Operation::Branch(self.temp(*from), *kind)),
            Operation::Switch(from, kind) => Ok(Operation::Switch(self.temp(*from), *kind)),
            Operation::ReadLine(to, text, size, stream) => {
                let (to, text) = (self.result(*to), self.temp(*text));
                Ok(Operation::ReadLine(to, text, self.temp(*size), self.temp(*stream)))
            }
            Operation::Stop => Ok(Operation::Stop),
            _ => Err(AllocError),
        }
    }

    /// An operation of a template, moved.
    pub fn operation(self, alloc: Global, operation: &Operation) -> Result<Operation, AllocError>
        ensures { IfOk result (λ o. act o ≡ spec.moved self.depth self.base (act operation.now)) }
    {
        match operation {
            Operation::Enter(_) => self.on_object(alloc, operation),
            Operation::Leave(_) => self.on_object(alloc, operation),
            Operation::Forget(_) => self.on_object(alloc, operation),
            Operation::Clear(_) => self.on_object(alloc, operation),
            Operation::Spell(_, _, _, _) => self.on_object(alloc, operation),
            Operation::Address(_, _, _) => self.on_pointers(operation),
            Operation::Load(_, _, _) => self.on_pointers(operation),
            Operation::Store(_, _, _, _) => self.on_pointers(operation),
            Operation::Copy(_, _, _) => self.on_pointers(operation),
            Operation::Narrow(_, _, _, _) => self.on_pointers(operation),
            Operation::Shift(_, _, _, _, _) => self.with_pointers(operation),
            Operation::Difference(_, _, _, _) => self.with_pointers(operation),
            Operation::ComparePointers(_, _, _, _) => self.with_pointers(operation),
            Operation::Constant(_, _, _) => self.on_numbers(operation),
            Operation::Binary(_, _, _, _, _) => self.on_numbers(operation),
            Operation::Unary(_, _, _, _) => self.on_numbers(operation),
            Operation::Compare(_, _, _, _) => self.on_numbers(operation),
            Operation::Not(_, _, _) => self.on_numbers(operation),
            Operation::Convert(_, _, _, _) => self.on_numbers(operation),
            Operation::Library(to, function, arguments, base, size) => {
                self.library(alloc, *to, *function, arguments.as_slice(), *base, *size)
            }
            Operation::Jump => self.at_end(operation),
            Operation::Branch(_, _) => self.at_end(operation),
            Operation::Switch(_, _) => self.at_end(operation),
            Operation::ReadLine(_, _, _, _) => self.at_end(operation),
            Operation::Stop => self.at_end(operation),
        }
    }

    /// A number that a temporary takes on an edge.
    pub fn put(self, put: Option<(u32, i128)>) -> Option<(u32, i128)>
        ensures { result ≡ spec.put_moved self.depth put }
    {
        match put {
            Some((temp, n)) => Some((self.temp(temp), n)),
            None => None,
        }
    }
}
