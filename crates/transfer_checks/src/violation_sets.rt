//! Sets of the rules that a run may violate.
ghost use Rattle.std.specs.Prelude.{◌≡◌, ◌||◌};
ghost use Rattle.transfer_checks.specs.ViolationSets.{no_violations, violations_union, violates};

use cc_base::Rule;

/// A set of the rules on runs.
#[derive(Clone, Copy, PartialEq, Eq, Debug)]
pub struct Violations {
    pub accfree: bool,
    pub chrsgnext: bool,
    pub dblfree: bool,
    pub diverr: bool,
    pub insufmem: bool,
    pub intoflow: bool,
    pub invptr: bool,
    pub libptr: bool,
    pub nonnullcs: bool,
    pub nullref: bool,
    pub ptrobj: bool,
    pub strmod: bool,
    pub taintsink: bool,
    pub uninitref: bool,
    pub xfree: bool,
}

/// Whether one of both holds.
fn either(a: bool, b: bool) -> bool
    ensures { result ≡ (a || b) }
{
    a || b
}

impl Violations {
    /// No rule.
    pub fn none() -> Violations
        ensures { result ≡ no_violations }
    {
        Violations {
            accfree: false,
            chrsgnext: false,
            dblfree: false,
            diverr: false,
            insufmem: false,
            intoflow: false,
            invptr: false,
            libptr: false,
            nonnullcs: false,
            nullref: false,
            ptrobj: false,
            strmod: false,
            taintsink: false,
            uninitref: false,
            xfree: false,
        }
    }

    /// The rules of either set.
    pub fn union(self, other: Violations) -> Violations
        ensures { result ≡ violations_union self other }
    {
        Violations {
            accfree: either(self.accfree, other.accfree),
            chrsgnext: either(self.chrsgnext, other.chrsgnext),
            dblfree: either(self.dblfree, other.dblfree),
            diverr: either(self.diverr, other.diverr),
            insufmem: either(self.insufmem, other.insufmem),
            intoflow: either(self.intoflow, other.intoflow),
            invptr: either(self.invptr, other.invptr),
            libptr: either(self.libptr, other.libptr),
            nonnullcs: either(self.nonnullcs, other.nonnullcs),
            nullref: either(self.nullref, other.nullref),
            ptrobj: either(self.ptrobj, other.ptrobj),
            strmod: either(self.strmod, other.strmod),
            taintsink: either(self.taintsink, other.taintsink),
            uninitref: either(self.uninitref, other.uninitref),
            xfree: either(self.xfree, other.xfree),
        }
    }

    /// Whether the rule is in the set. The syntactic rules never are.
    pub fn has(self, rule: Rule) -> bool
        ensures { result ≡ violates self rule }
    {
        match rule {
            Rule::Accfree => self.accfree,
            Rule::Chrsgnext => self.chrsgnext,
            Rule::Dblfree => self.dblfree,
            Rule::Diverr => self.diverr,
            Rule::Insufmem => self.insufmem,
            Rule::Intoflow => self.intoflow,
            Rule::Invptr => self.invptr,
            Rule::Libptr => self.libptr,
            Rule::Nonnullcs => self.nonnullcs,
            Rule::Nullref => self.nullref,
            Rule::Ptrobj => self.ptrobj,
            Rule::Strmod => self.strmod,
            Rule::Taintsink => self.taintsink,
            Rule::Uninitref => self.uninitref,
            Rule::Xfree => self.xfree,
            Rule::Boolasgn | Rule::Sizeofptr | Rule::Swtchdflt => false,
        }
    }
}
