//! Operations by what they are on.
ghost use Rattle.std.specs.Prelude.{◌≡◌};
ghost use Rattle.transfer_instructions.specs.Instructions.OperationGroups.{is_on_values, is_on_pointers, is_on_objects};

use cfg::Operation;

/// Whether an operation is on integers, or a conversion.
pub fn is_on_values(operation: &Operation) -> bool
    ensures { result ≡ is_on_values operation.now }
{
    match operation {
        Operation::Constant(_, _, _) => true,
        Operation::Binary(_, _, _, _, _) => true,
        Operation::Unary(_, _, _, _) => true,
        Operation::Compare(_, _, _, _) => true,
        Operation::Not(_, _, _) => true,
        Operation::Convert(_, _, _, _) => true,
        _ => false,
    }
}

/// Whether an operation makes, moves or compares pointers.
pub fn is_on_pointers(operation: &Operation) -> bool
    ensures { result ≡ is_on_pointers operation.now }
{
    match operation {
        Operation::Address(_, _, _) => true,
        Operation::Narrow(_, _, _, _) => true,
        Operation::Shift(_, _, _, _, _) => true,
        Operation::Difference(_, _, _, _) => true,
        Operation::ComparePointers(_, _, _, _) => true,
        _ => false,
    }
}

/// Whether an operation is on all bytes of a named object, or spells a text into it.
pub fn is_on_objects(operation: &Operation) -> bool
    ensures { result ≡ is_on_objects operation.now }
{
    match operation {
        Operation::Enter(_) => true,
        Operation::Leave(_) => true,
        Operation::Forget(_) => true,
        Operation::Clear(_) => true,
        Operation::Spell(_, _, _, _) => true,
        _ => false,
    }
}
