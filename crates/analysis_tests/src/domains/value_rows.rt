//! Rows of labels, values and cells.
ghost use Rattle.cc_base.specs.IntegerDomains.{IsNear};

use crate::domains::pointer_rows::given;
use cc_base::{IntDomain, IntOp, IntType, Lattice, Rel, Tri, UnOp};
use interval_domain::intervals::Interval;
use pointer_domain::Pointers;
use value_domain::strings::FirstZero;
use value_domain::values::{AllocState, Cell, Labels, Value};

const INT: IntType = IntType {
    bytes: 4,
    signed: true,
    rank: 3,
};

const UNSIGNED: IntType = IntType {
    bytes: 4,
    signed: false,
    rank: 3,
};

fn number<I: IntDomain>(lo: i128, hi: i128, labels: Labels) -> Value<I>
    ensures { IsNear (I.numbers.bounds result.num) }
{
    Value::of_number(given(lo, hi), labels)
}

#[test]
fn labels(rt: HostRuntime) {
    let input = Labels::input(INT);
    let none = Labels::none();
    let both = Labels {
        lo: true,
        hi: true,
        mutated: false,
    };
    let high = Labels {
        lo: false,
        hi: true,
        mutated: false,
    };
    let changed = Labels {
        lo: false,
        hi: false,
        mutated: true,
    };
    assert!(rt; input == both && Labels::input(UNSIGNED) == high);
    assert!(rt; high.operated(IntOp::Add, none, INT, false) == both);
    assert!(rt; none.operated(IntOp::Add, none, UNSIGNED, true) == changed);
    assert!(rt; changed.operated(IntOp::Rem, none, INT, false) == none);
    assert!(rt; none.operated(IntOp::And, changed, INT, false) == none);
    assert!(rt; input.converted(UNSIGNED, true) == high);
    assert!(rt;
        input.dropped(Rel::Lt, INT)
            == Labels {
                lo: true,
                hi: false,
                mutated: false
            }
    );
    assert!(rt; input.dropped(Rel::Ge, INT) == high && input.dropped(Rel::Le, UNSIGNED) == none);
    assert!(rt; input.dropped(Rel::Ne, INT) == input && input.dropped(Rel::Eq, INT) == none);
    assert!(rt; changed.negated(UnOp::Compl, INT, false) == changed);
}

#[test]
fn values(rt: HostRuntime) {
    let x: Value<Interval> = number(0, 10, Labels::none());
    let y: Value<Interval> = number(4294967290, 4294967290, Labels::none());
    let sum = x.arith(IntOp::Add, y, UNSIGNED);
    assert!(rt; sum.labels.mutated && sum.num.bounds() == Some((0, 4294967295)));
    assert!(rt; !x.arith(IntOp::Sub, x, INT).labels.mutated);
    assert!(rt; y.convert(INT).labels.mutated && y.convert(INT).num.bounds() == Some((-6, -6)));
    assert!(rt; x.unary(UnOp::Neg, UNSIGNED).labels.mutated);
    assert!(rt; x.truth() == Tri::Both && y.truth() == Tri::Yes);
    assert!(rt; Value::<Interval>::bottom().truth() == Tri::Never);
}

#[test]
fn cells(rt: HostRuntime) {
    let x: Value<Interval> = number(0, 10, Labels::none());
    let value = Cell::Value(x);
    let first: Cell<Interval> = Cell::First(FirstZero { at: given(0, 3) });
    let state: Cell<Interval> = Cell::State(AllocState {
        size: given(4, 4),
        live: true,
        freed: false,
    });
    let blank: Cell<Interval> = Cell::Value(Value::blank());
    let null: Cell<Interval> = Cell::Value(Value::of_pointer(Pointers::bottom()));
    assert!(rt; Cell::bottom().leq(value) && !value.leq(Cell::bottom()));
    assert!(rt; value.join(first).leq(Cell::Mixed) && !value.join(first).leq(value));
    assert!(rt; value.leq(value.join(blank)) && blank.leq(value.join(blank)) && !value.leq(blank));
    assert!(rt; state.leq(state.join(Cell::Nothing)) && !first.leq(state) && null.leq(value));
}
