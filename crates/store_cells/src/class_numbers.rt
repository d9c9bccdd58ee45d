//! Classes, by their numbers among the class cells.
ghost use Rattle.std.specs.Prelude.{◌≡◌};
ghost use Rattle.store_cells.specs.ClassNumbers.{class_number, class_at, same_class, is_pointer};

use c_layout::Class;

/// The number of a class among the class cells.
pub fn class_number(class: Class) -> usize
    ensures { result ≡ class_number class }
{
    match class {
        Class::Char => 0,
        Class::Short => 1,
        Class::Int => 2,
        Class::Long => 3,
        Class::LongLong => 4,
        Class::Pointer => 5,
    }
}

/// The class of a class cell.
pub fn class_at(at: usize) -> Class
    ensures { result ≡ class_at at }
{
    if at == 0 {
        Class::Char
    } else if at == 1 {
        Class::Short
    } else if at == 2 {
        Class::Int
    } else if at == 3 {
        Class::Long
    } else if at == 4 {
        Class::LongLong
    } else {
        Class::Pointer
    }
}

/// Whether two classes are the same.
pub fn same_class(a: Class, b: Class) -> bool
    ensures { result ≡ same_class a b }
{
    class_number(a) == class_number(b)
}

/// Whether the class is that of pointers.
pub fn is_pointer(class: Class) -> bool
    ensures { result ≡ is_pointer class }
{
    class_number(class) == 5
}
