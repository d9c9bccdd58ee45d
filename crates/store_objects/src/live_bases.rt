//! Which bases may be live, freed or one instance alone.
ghost use Rattle.std.specs.Prelude.{◌≡◌};
ghost use Rattle.store_objects.specs.LiveBases.{is_single_kind, is_literal_kind, only_base, has_base, with_base_if, single_bases, add_writable, writable_of, is_one_instance, may_be_live, may_be_freed, add_live, live_of, is_freed_or, any_freed};

use c_layout::{BaseInfo, BaseKind};
use cc_base::IntDomain;
use pointer_domain::Bases;
use store_cells::{state_at, state_position};
use value_domain::values::Cell;

/// One more than the greatest base number.
pub const MOST_BASES: usize = 1_016;

/// Whether the base may have a live instance: that of an object or a literal always, that of a heap
/// base by its state.
pub fn may_be_live<I: IntDomain>(base: &BaseInfo, row: &[Cell<I>]) -> bool
    ensures { result ≡ may_be_live I.lattice I.numbers base.now row.now }
{
    !base.shape.heap || state_at(row, state_position(base)).live
}

/// Whether the base may have a freed instance.
pub fn may_be_freed<I: IntDomain>(base: &BaseInfo, row: &[Cell<I>]) -> bool
    ensures { result ≡ may_be_freed I.lattice I.numbers base.now row.now }
{
    base.shape.heap && state_at(row, state_position(base)).freed
}

fn is_single_kind(kind: BaseKind) -> bool
    ensures { result ≡ is_single_kind kind }
{
    match kind {
        BaseKind::Static | BaseKind::Automatic | BaseKind::Literal | BaseKind::Newest => true,
        BaseKind::Older => false,
    }
}

fn is_literal_kind(kind: BaseKind) -> bool
    ensures { result ≡ is_literal_kind kind }
{
    match kind {
        BaseKind::Static | BaseKind::Automatic | BaseKind::Newest | BaseKind::Older => false,
        BaseKind::Literal => true,
    }
}

/// Whether the base stands for at most one instance at a time.
pub fn is_single(base: &BaseInfo) -> bool
    ensures { result ≡ is_single_kind base.now.kind }
{
    is_single_kind(base.kind)
}

/// The set of the base with this number, which is empty where no set holds the number.
pub fn only_base(number: usize) -> Bases
    ensures { result ≡ only_base number }
{
    if number < MOST_BASES {
        Bases::empty().with(number as u16)
    } else {
        Bases::empty()
    }
}

/// Whether the set has the base with this number.
pub fn has_base(set: Bases, number: usize) -> bool
    ensures { result ≡ has_base set number }
{
    number < MOST_BASES && set.has(number as u16)
}

/// Adds the base of a number to a set, if it is wanted.
fn add_if(wanted: bool, number: usize, found: &mut Bases)
    ensures { found.new ≡ with_base_if wanted number found.old }
{
    if wanted {
        *found = found.union(only_base(number));
    }
}

/// The bases that stand for at most one instance.
pub fn single_bases(bases: &[BaseInfo]) -> Bases
    ensures { result ≡ single_bases bases.now }
{
    let mut found = Bases::empty();
    for n in 0..bases.len() {
        add_if(is_single(&bases[n]), n, &mut found);
    }
    found
}

/// Adds the base with this number, if the set has it and it may be live.
fn add_live<I: IntDomain>(
    base: &BaseInfo,
    number: usize,
    row: &[Cell<I>],
    set: &Bases,
    found: &mut Bases,
)
    ensures { found.new ≡ add_live I.lattice I.numbers row.now set.now base.now number found.old }
{
    if has_base(*set, number) {
        add_if(may_be_live(base, row), number, found);
    }
}

/// The bases of the set that may be live.
pub fn live_of<I: IntDomain>(bases: &[BaseInfo], row: &[Cell<I>], set: Bases) -> Bases
    ensures { result ≡ live_of I.lattice I.numbers bases.now row.now set }
{
    let mut found = Bases::empty();
    for n in 0..bases.len() {
        add_live(&bases[n], n, row, &set, &mut found);
    }
    found
}

/// Adds the base with this number, if the set has it and it is no literal.
fn add_writable(base: &BaseInfo, number: usize, set: &Bases, found: &mut Bases)
    ensures { found.new ≡ add_writable set.now base.now number found.old }
{
    if has_base(*set, number) {
        add_if(!is_literal_kind(base.kind), number, found);
    }
}

/// The bases of the set that are no literals.
pub fn writable_of(bases: &[BaseInfo], set: Bases) -> Bases
    ensures { result ≡ writable_of bases.now set }
{
    let mut found = Bases::empty();
    for n in 0..bases.len() {
        add_writable(&bases[n], n, &set, &mut found);
    }
    found
}

/// Whether something was found, or the set has the base with this number and it may be freed.
fn is_freed_or<I: IntDomain>(
    found: bool,
    base: &BaseInfo,
    number: usize,
    row: &[Cell<I>],
    set: Bases,
) -> bool
    ensures { result ≡ is_freed_or I.lattice I.numbers row.now set base.now number found }
{
    found || (has_base(set, number) && may_be_freed(base, row))
}

/// Whether some base of the set may be freed.
pub fn any_freed<I: IntDomain>(bases: &[BaseInfo], row: &[Cell<I>], set: Bases) -> bool
    ensures { result ≡ any_freed I.lattice I.numbers bases.now row.now set }
{
    let mut found = false;
    for n in 0..bases.len() {
        found = is_freed_or(found, &bases[n], n, row, set);
    }
    found
}

/// Whether the set has one base, which stands for at most one instance.
pub fn is_one_instance(bases: &[BaseInfo], set: Bases) -> bool
    ensures { result ≡ is_one_instance bases.now set }
{
    set.count() == 1 && set.within(single_bases(bases))
}
