//! Lists of numbers in order.
ghost use Rattle.std.specs.Prelude.{◌≡◌, ◌≤◌, true, length, Contains, ℤ};
ghost use Rattle.cc_base.specs.Ascending.{is_ascending};

/// The numbers of a list in ascending order, each once.
pub(crate) fn ordered(numbers: Vec<i128>) -> Vec<i128>
    ensures ascending { is_ascending result.items ≡ true }
    ensures kept { (n : ℤ) → Contains numbers.items n → Contains result.items n }
    ensures made { (n : ℤ) → Contains result.items n → Contains numbers.items n }
    ensures shorter { length result.items ≤ length numbers.items }
{
    let mut list = numbers;
    list.sort_unstable();
    list.dedup();
    list
}
