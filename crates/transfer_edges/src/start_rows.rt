//! The row of the entry.
ghost use Rattle.std.specs.Prelude.{◌≡◌, true, false, Some, None, length, map};
ghost use Rattle.transfer_edges.specs.StartRows.{no_value, empty_state, empty_base, empty_bases, empty_row, same_object, base_in, with_size, pointer_into, static_pointer, static_value, static_class, reached_row, store_static, start_store, store_behind, start_stores, start_value, start_object, object_behind, start_objects, put_parameter, start_parameter, start_parameters, start_row};

use c_layout::{BaseInfo, Class, StaticBase, StaticStore, StaticValue};
use cc_base::{IntDomain, Lattice};
use cfg::{Flow, InitialObject, InitialValue, ParameterInput};
use pointer_domain::Pointers;
use store::{
    clear, leaf_position, near_pointer, near_value, null_pointer, only_base, put_state, put_value,
    set_zeros, spell, state_position, store, whole_range,
};
use transfer_instructions::values::{class_of_kind, is_sized};
use value_domain::strings::FirstZero;
use value_domain::values::{AllocState, Cell, Labels, Value};

/// The cell with nothing in it.
fn no_value<I: IntDomain>(_cell: Cell<I>) -> Cell<I>
    ensures { result ≡ no_value I.lattice _cell }
{
    Cell::Value(Value::bottom())
}

/// Nothing is in any cell.
fn empty_values<I: IntDomain>(row: &mut [Cell<I>])
    ensures length { length row.new ≡ length row.old }
    ensures row { row.new ≡ map (no_value I.lattice) row.old }
{
    for at in 0..row.len() {
        row[at] = no_value(row[at]);
    }
}

/// The state of an instance, where a base has one, stands for nothing.
#[tactic(auto, unfolding(crate::specs::StartRows::empty_state))]
fn empty_state<I: IntDomain>(base: &BaseInfo, row: &mut [Cell<I>])
    ensures length { length row.new ≡ length row.old }
    ensures row { row.new ≡ empty_state I.lattice base.now row.old }
{
    if base.shape.heap {
        put_state(row, state_position(base), AllocState::bottom());
    }
}

/// The first zeros and the state of a base stand for nothing.
#[tactic(auto, unfolding(crate::specs::StartRows::empty_base))]
fn empty_base<I: IntDomain>(base: &BaseInfo, row: &mut [Cell<I>])
    ensures length { length row.new ≡ length row.old }
    ensures row { row.new ≡ empty_base I.lattice base.now row.old }
{
    set_zeros(base, row, FirstZero::bottom());
    empty_state(base, row);
}

#[tactic(auto, unfolding(crate::specs::StartRows::empty_bases))]
fn empty_bases<I: IntDomain>(bases: &[BaseInfo], row: &mut [Cell<I>])
    ensures length { length row.new ≡ length row.old }
    ensures row { row.new ≡ empty_bases I.lattice bases.now row.old }
{
    for n in 0..bases.len() {
        empty_base(&bases[n], row);
    }
}

/// Makes `row` the row in which nothing is.
#[tactic(auto, unfolding(crate::specs::StartRows::empty_row))]
fn empty_row<I: IntDomain>(flow: &Flow, row: &mut [Cell<I>])
    ensures length { length row.new ≡ length row.old }
    ensures row { row.new ≡ empty_row I.lattice flow.now row.old }
{
    empty_values(row);
    empty_bases(flow.bases.as_slice(), row);
}

fn same_object(a: StaticBase, b: StaticBase) -> bool
    ensures { result ≡ same_object a b }
{
    match (a, b) {
        (StaticBase::Object(m), StaticBase::Object(n)) => m == n,
        (StaticBase::Literal(m), StaticBase::Literal(n)) => m == n,
        _ => false,
    }
}

fn with_size(base: Option<u32>, size: u64) -> Option<(u32, u64)>
    ensures { result ≡ with_size base size }
{
    match base {
        None => None,
        Some(number) => Some((number, size)),
    }
}

/// The number of the base of an object of static storage or a literal, and its size.
fn base_in(objects: &[InitialObject], object: StaticBase) -> Option<(u32, u64)>
    ensures { result ≡ base_in objects.now object }
{
    for at in 0..objects.len() {
        if same_object(objects[at].object, object) {
            return with_size(objects[at].base, objects[at].size);
        }
    }
    None
}

/// A pointer to an offset of a base, within bounds.
fn pointer_into<I: IntDomain>(base: u32, size: u64, offset: u64, lo: u64, hi: u64) -> Pointers<I>
    ensures { result ≡ pointer_into I.numbers base size offset lo hi }
{
    Pointers {
        bases: only_base(base as usize),
        lo: I::one(lo as i128),
        rel: I::one(offset as i128 - lo as i128),
        len: I::one(hi as i128 - lo as i128),
        part: lo != 0 || hi != size,
        null: false,
        ended: false,
    }
}

/// The pointer of an address constant, null where its object has no base.
fn static_pointer<I: IntDomain>(
    object: Option<(u32, u64)>,
    offset: u64,
    lo: u64,
    hi: u64,
) -> Pointers<I>
    ensures { result ≡ static_pointer I.lattice I.numbers object offset lo hi }
{
    match object {
        None => null_pointer(),
        Some((base, size)) => pointer_into(base, size, offset, lo, hi),
    }
}

/// The value of a static initializer.
fn static_value<I: IntDomain>(objects: &[InitialObject], value: StaticValue) -> Value<I>
    ensures { result ≡ static_value I.lattice I.numbers objects.now value }
{
    match value {
        StaticValue::Number(n, _) => Value::of_number(I::one(n), Labels::none()),
        StaticValue::Null => Value::of_pointer(null_pointer()),
        StaticValue::Address(object, offset, lo, hi) => {
            let found = base_in(objects, object);
            Value::of_pointer(static_pointer(found, offset, lo, hi))
        }
    }
}

/// The class of a static initializer, and whether it is signed.
fn static_class(value: StaticValue) -> (Class, bool)
    ensures { result ≡ static_class value }
{
    match value {
        StaticValue::Number(_, kind) => (class_of_kind(kind), kind.signed),
        StaticValue::Null => (Class::Pointer, false),
        StaticValue::Address(_, _, _, _) => (Class::Pointer, false),
    }
}

/// Stores a static initializer at an offset of a base of a size; false where it has no place.
#[tactic(auto, unfolding(crate::specs::StartRows::store_static))]
fn store_static<I: IntDomain>(
    flow: &Flow,
    row: &mut [Cell<I>],
    base: u32,
    size: u64,
    offset: u64,
    value: StaticValue,
) -> bool
    ensures length { length row.new ≡ length row.old }
    ensures row { reached_row result row.new ≡ store_static I.lattice I.numbers flow.now base size offset value row.old }
{
    let (class, signed) = static_class(value);
    let at = near_pointer(pointer_into(base, size, offset, 0, size));
    let stored = near_value(static_value(flow.initial.as_slice(), value));
    let bases = flow.bases.as_slice();
    if store(&flow.model, bases, row, at, class, signed, stored) {
        true
    } else {
        false
    }
}

/// One store of a static initializer; false where it has no place.
#[tactic(auto, unfolding(crate::specs::StartRows::start_store))]
fn start_store<I: IntDomain>(
    flow: &Flow,
    row: &mut [Cell<I>],
    base: u32,
    size: u64,
    one: &StaticStore,
) -> bool
    ensures length { length row.new ≡ length row.old }
    ensures row { reached_row result row.new ≡ start_store I.lattice I.numbers flow.now base size one.now row.old }
{
    match one {
        StaticStore::Value(offset, value) => store_static(flow, row, base, size, *offset, *value),
        StaticStore::Spell(offset, room, text) => {
            let bases = flow.bases.as_slice();
            spell(bases, row, base, *offset, *room, text.as_bytes());
            true
        }
    }
}

/// One store more, where those before it were reached.
fn store_behind<I: IntDomain>(
    reached: bool,
    flow: &Flow,
    row: &mut [Cell<I>],
    base: u32,
    size: u64,
    one: &StaticStore,
) -> bool
    ensures length { length row.new ≡ length row.old }
    ensures row { reached_row result row.new ≡ store_behind I.lattice I.numbers flow.now base size one.now (reached_row reached row.old) }
{
    if reached {
        start_store(flow, row, base, size, one)
    } else {
        false
    }
}

/// The stores of a static initializer in order; false where one has no place.
#[tactic(auto, unfolding(crate::specs::StartRows::start_stores))]
fn start_stores<I: IntDomain>(
    flow: &Flow,
    row: &mut [Cell<I>],
    base: u32,
    size: u64,
    stores: &[StaticStore],
) -> bool
    ensures length { length row.new ≡ length row.old }
    ensures row { reached_row result row.new ≡ start_stores I.lattice I.numbers flow.now base size stores.now row.old }
{
    let mut reached = true;
    for at in 0..stores.len() {
        reached = store_behind(reached, flow, row, base, size, &stores[at]);
    }
    reached
}

/// The initial value of an object or a literal; false where a store has no place.
#[tactic(auto, unfolding(crate::specs::StartRows::start_value))]
fn start_value<I: IntDomain>(
    flow: &Flow,
    row: &mut [Cell<I>],
    base: u32,
    size: u64,
    value: &InitialValue,
) -> bool
    ensures length { length row.new ≡ length row.old }
    ensures row { reached_row result row.new ≡ start_value I.lattice I.numbers flow.now base size value.now row.old }
{
    let bases = flow.bases.as_slice();
    match value {
        InitialValue::Stores(stores) => {
            clear(bases, row, base);
            start_stores(flow, row, base, size, stores.as_slice())
        }
        InitialValue::Literal(text) => {
            spell(bases, row, base, 0, size, text.as_bytes());
            true
        }
    }
}

/// The initial value of an object that has a base; false where a store has no place.
#[tactic(auto, unfolding(crate::specs::StartRows::start_object))]
fn start_object<I: IntDomain>(flow: &Flow, row: &mut [Cell<I>], object: &InitialObject) -> bool
    ensures length { length row.new ≡ length row.old }
    ensures row { reached_row result row.new ≡ start_object I.lattice I.numbers flow.now object.now.base object.now.size object.now.value row.old }
{
    match object.base {
        None => true,
        Some(base) => start_value(flow, row, base, object.size, &object.value),
    }
}

/// The initial value of one object more, where those before it were reached.
fn object_behind<I: IntDomain>(
    reached: bool,
    flow: &Flow,
    row: &mut [Cell<I>],
    object: &InitialObject,
) -> bool
    ensures length { length row.new ≡ length row.old }
    ensures row { reached_row result row.new ≡ object_behind I.lattice I.numbers flow.now object.now (reached_row reached row.old) }
{
    if reached {
        start_object(flow, row, object)
    } else {
        false
    }
}

/// The initial values of objects in order; false where a store has no place.
#[tactic(auto, unfolding(crate::specs::StartRows::start_objects))]
fn start_objects<I: IntDomain>(flow: &Flow, row: &mut [Cell<I>], objects: &[InitialObject]) -> bool
    ensures length { length row.new ≡ length row.old }
    ensures row { reached_row result row.new ≡ start_objects I.lattice I.numbers flow.now objects.now row.old }
{
    let mut reached = true;
    for at in 0..objects.len() {
        reached = object_behind(reached, flow, row, &objects[at]);
    }
    reached
}

/// A parameter of the entry takes any number of its type, with the labels of input.
fn put_parameter<I: IntDomain>(base: &BaseInfo, row: &mut [Cell<I>], parameter: ParameterInput)
    ensures length { length row.new ≡ length row.old }
    ensures row { row.new ≡ put_parameter I.lattice I.numbers parameter.kind (Some base.now) row.old }
{
    if is_sized(parameter.kind) {
        let value = whole_range(parameter.kind, Labels::input(parameter.kind), false);
        put_value(row, leaf_position(base, 0), value);
    }
}

#[tactic(auto, unfolding(crate::specs::StartRows::start_parameter))]
fn start_parameter<I: IntDomain>(flow: &Flow, row: &mut [Cell<I>], parameter: ParameterInput)
    ensures length { length row.new ≡ length row.old }
    ensures row { row.new ≡ start_parameter I.lattice I.numbers flow.now parameter row.old }
{
    match flow.bases.get(parameter.base as usize) {
        None => {}
        Some(base) => put_parameter(base, row, parameter),
    }
}

#[tactic(auto, unfolding(crate::specs::StartRows::start_parameters))]
fn start_parameters<I: IntDomain>(flow: &Flow, row: &mut [Cell<I>])
    ensures length { length row.new ≡ length row.old }
    ensures row { row.new ≡ start_parameters I.lattice I.numbers flow.now row.old }
{
    let parameters = flow.parameters.as_slice();
    for at in 0..parameters.len() {
        start_parameter(flow, row, parameters[at]);
    }
}

/// Makes `row` the row of the entry: objects of static storage have their initial values, literals
/// their characters, the entry's parameters any number; nothing is in any other cell. False where a
/// static initializer has no place, which no well-formed program has; then the row is unspecified.
#[tactic(auto, unfolding(crate::specs::StartRows::start_row))]
pub fn start_row<I: IntDomain>(flow: &Flow, row: &mut [Cell<I>]) -> bool
    ensures length { length row.new ≡ length row.old }
    ensures reached { result ≡ true → start_row I.lattice I.numbers flow.now row.old ≡ Some row.new }
    ensures unreached { result ≡ false → start_row I.lattice I.numbers flow.now row.old ≡ None }
{
    empty_row(flow, row);
    if start_objects(flow, row, flow.initial.as_slice()) {
        start_parameters(flow, row);
        true
    } else {
        false
    }
}
