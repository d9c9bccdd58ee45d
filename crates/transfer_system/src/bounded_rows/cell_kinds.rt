//! The kinds of the cells of a row, position by position.
ghost use Rattle.std.specs.Prelude.{◌≡◌, ◌≤◌, ◌<◌, ◌+◌, true, length, drop};
ghost use Rattle.transfer_system.specs.BoundedRows.CellKinds.{values_of, kinds_in, all_kinds, is_spent, first_kind, kinds_behind, IsSettled};

use c_layout::BaseInfo;

/// What a position of a row is for.
#[derive(Clone, Copy, PartialEq, Eq, Debug)]
pub enum CellKind {
    /// The value of a scalar or of a temporary.
    Value,
    /// The first zero of an array.
    First,
    /// The state of a heap base.
    State,
}

/// The positions that are left of a base, and the number of the next base. Behind all bases come the
/// temporaries.
#[derive(Clone, Copy)]
pub struct KindsLeft {
    pub values: usize,
    pub zeros: usize,
    pub state: bool,
    pub next: usize,
}

/// The positions from the start of a row on.
pub fn start_of_row(bases: &[BaseInfo]) -> KindsLeft
    ensures { kinds_in bases.now result ≡ all_kinds bases.now }
{
    let _bases = bases;
    KindsLeft {
        values: 0,
        zeros: 0,
        state: false,
        next: 0,
    }
}

/// The positions of the leaves of a base and of its class cells.
fn values_of(base: &BaseInfo) -> usize
    ensures { result ≡ values_of base.now }
{
    let leaves = base.shape.cells.as_slice().len();
    if base.shape.heap {
        leaves.saturating_add(6)
    } else {
        leaves
    }
}

/// All positions from a base on.
fn from_base(bases: &[BaseInfo], next: usize) -> KindsLeft
    requires { next < length bases.now }
    ensures kinds { kinds_in bases.now result ≡ all_kinds (drop next bases.now) }
    ensures next { result.next ≡ next + 1 }
{
    let base = &bases[next];
    KindsLeft {
        values: values_of(base),
        zeros: base.shape.zeros.as_slice().len(),
        state: base.shape.heap,
        next: next + 1,
    }
}

/// Whether no position of the base is left.
fn is_spent(left: KindsLeft) -> bool
    ensures { result ≡ is_spent left }
{
    left.values == 0 && (left.zeros == 0 && !left.state)
}

/// The same positions, with one left of a base where a base has one.
pub fn settled(bases: &[BaseInfo], left: KindsLeft) -> KindsLeft
    ensures kinds { kinds_in bases.now result ≡ kinds_in bases.now left }
    ensures settled { IsSettled bases.now result }
{
    let mut left = left;
    while left.next < bases.len() && is_spent(left) {
        left = from_base(bases, left.next);
    }
    left
}

/// The kind of the first position.
pub fn first_kind(bases: &[BaseInfo], left: KindsLeft) -> CellKind
    requires { IsSettled bases.now left }
    ensures { result ≡ first_kind (kinds_in bases.now left) }
{
    let _bases = bases;
    if left.values > 0 {
        CellKind::Value
    } else if left.zeros > 0 {
        CellKind::First
    } else if left.state {
        CellKind::State
    } else {
        CellKind::Value
    }
}

/// The positions behind the first one.
pub fn kinds_behind(bases: &[BaseInfo], left: KindsLeft) -> KindsLeft
    requires { IsSettled bases.now left }
    ensures { kinds_in bases.now result ≡ kinds_behind (kinds_in bases.now left) }
{
    let _bases = bases;
    let mut behind = left;
    if left.values > 0 {
        behind.values = left.values - 1;
    } else if left.zeros > 0 {
        behind.zeros = left.zeros - 1;
    } else {
        behind.state = false;
    }
    behind
}
