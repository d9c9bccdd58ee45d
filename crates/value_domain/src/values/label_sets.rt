//! Labels of integers: what is not yet known to be bounded.
ghost use Rattle.std.specs.Prelude.{◌≡◌};
ghost use Rattle.value_domain.specs.Values.LabelSets.{no_labels, all_labels, input_labels, labels_join, labels_leq, is_unlabelled, converted_labels, operated_labels, negated_labels, dropped_labels, is_bounded_by, carries_change, can_wrap};

use cc_base::{IntOp, IntType, Rel, UnOp};

/// The labels that an integer may have.
#[derive(Clone, Copy, PartialEq, Eq, Debug)]
pub struct Labels {
    /// It may be too low: it comes from input and was not compared with a lower bound.
    pub lo: bool,
    /// It may be too high: it comes from input and was not compared with an upper bound.
    pub hi: bool,
    /// A conversion or an unsigned operator may have changed it.
    pub mutated: bool,
}

impl Labels {
    /// No label.
    pub fn none() -> Labels
        ensures { result ≡ no_labels }
    {
        Labels {
            lo: false,
            hi: false,
            mutated: false,
        }
    }

    /// All labels.
    pub fn all() -> Labels
        ensures { result ≡ all_labels }
    {
        Labels {
            lo: true,
            hi: true,
            mutated: true,
        }
    }

    /// The labels of input of an integer type.
    pub fn input(kind: IntType) -> Labels
        ensures { result ≡ input_labels kind }
    {
        Labels {
            lo: kind.signed,
            hi: true,
            mutated: false,
        }
    }

    /// The labels of either set.
    pub fn union(self, other: Labels) -> Labels
        ensures { result ≡ labels_join self other }
    {
        Labels {
            lo: self.lo || other.lo,
            hi: self.hi || other.hi,
            mutated: self.mutated || other.mutated,
        }
    }

    /// Whether each label of the set is in `other`.
    pub fn within(self, other: Labels) -> bool
        ensures { result ≡ labels_leq self other }
    {
        (!self.lo || other.lo) && ((!self.hi || other.hi) && (!self.mutated || other.mutated))
    }

    /// Whether there is no label.
    pub fn is_empty(self) -> bool
        ensures { result ≡ is_unlabelled self }
    {
        !(self.lo || (self.hi || self.mutated))
    }

    /// The labels after a conversion to an integer type; `fits` says that no number changes.
    pub fn converted(self, to: IntType, fits: bool) -> Labels
        ensures { result ≡ converted_labels self to fits }
    {
        Labels {
            lo: to.signed && self.lo,
            hi: self.hi || (!to.signed && self.lo),
            mutated: self.mutated || !fits,
        }
    }

    fn is_bounded_by(self, other: Labels) -> bool
        ensures { result ≡ is_bounded_by self other }
    {
        !(self.lo || (self.hi || (other.lo || other.hi)))
    }

    fn carries_change(self, op: IntOp, other: Labels) -> bool
        ensures { result ≡ carries_change op self other }
    {
        match op {
            IntOp::Rem => (self.mutated || other.mutated) && !other.is_empty(),
            IntOp::And => (self.mutated || other.mutated)
                && (!self.is_empty() && !other.is_empty()),
            _ => self.mutated || other.mutated,
        }
    }

    /// The labels of the result of a binary operator at a type; `leaves` says that a mathematical
    /// result may lie outside the type.
    pub fn operated(self, op: IntOp, other: Labels, kind: IntType, leaves: bool) -> Labels
        ensures { result ≡ operated_labels op self other kind leaves }
    {
        let unbounded = !self.is_bounded_by(other);
        Labels {
            lo: kind.signed && unbounded,
            hi: unbounded,
            mutated: self.carries_change(op, other) || (can_wrap(op) && (!kind.signed && leaves)),
        }
    }

    /// The labels of the result of a unary operator at a type.
    pub fn negated(self, op: UnOp, kind: IntType, leaves: bool) -> Labels
        ensures { result ≡ negated_labels op self kind leaves }
    {
        let unbounded = self.lo || self.hi;
        let wraps = match op {
            UnOp::Neg => !kind.signed && leaves,
            UnOp::Compl => false,
        };
        Labels {
            lo: kind.signed && unbounded,
            hi: unbounded,
            mutated: self.mutated || wraps,
        }
    }

    /// The labels of an integer that has a relation, in a common type, to one without labels.
    pub fn dropped(self, rel: Rel, common: IntType) -> Labels
        ensures { result ≡ dropped_labels rel self common }
    {
        match rel {
            Rel::Lt | Rel::Le => Labels {
                lo: common.signed && self.lo,
                hi: false,
                mutated: false,
            },
            Rel::Gt | Rel::Ge => Labels {
                lo: !common.signed && self.lo,
                hi: self.hi,
                mutated: self.mutated,
            },
            Rel::Eq => Labels::none(),
            Rel::Ne => self,
        }
    }
}

/// Whether an unsigned operator wraps where its mathematical result is outside its type.
fn can_wrap(op: IntOp) -> bool
    ensures { result ≡ can_wrap op }
{
    match op {
        IntOp::Add | IntOp::Sub | IntOp::Mul | IntOp::Shl => true,
        _ => false,
    }
}
