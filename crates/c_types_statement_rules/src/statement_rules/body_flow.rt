//! Labels, loops and switches of a function's body (6.8.1, 6.8.4.2, 6.8.6 of ISO/IEC 9899:2011).
ghost use Rattle.std.specs.Prelude.{◌≡◌, IfOk, option_map};
ghost use Rattle.c_layout.specs.Types.{view};
ghost use Rattle.c_types_statement_rules.specs.StatementRules.BodyFlow as spec;
ghost use Rattle.c_types_statement_rules.specs.StatementRules.BodyFlow.{switch_view, flow_view};

use c_layout::{CType, CaseLabel};
use c_types_rules::rules::converted;
use cc_base::{IntType, Memory, Place};
use indexmap::{IndexMap, IndexSet};
use std::alloc::Global;

/// An open `switch`: the promoted type of its value, its labels so far, and whether it has a default.
#[derive(Drop)]
pub struct OpenSwitch {
    pub kind: IntType,
    pub labels: Vec<CaseLabel>,
    values: IndexSet<i128>,
    pub has_default: bool,
}

/// What a statement may refer to.
#[derive(Drop)]
pub struct BodyFlow {
    pub alloc: Global,
    pub result: CType,
    /// The labels of the body, numbered in reading order.
    labels: IndexMap<u32, u32>,
    seen: Vec<bool>,
    pub switches: Vec<OpenSwitch>,
    /// How many loops are open, and how many loops and switches.
    pub loops: u32,
    pub breakables: u32,
}

/// A case label: its number in the innermost switch, and whether there was one of its value.
#[derive(Clone, Copy)]
pub struct AddedCase {
    pub number: u32,
    pub is_repeated: bool,
}

impl OpenSwitch {
    /// A switch without labels.
    pub fn new(alloc: Global, kind: IntType) -> OpenSwitch
        ensures { switch_view result ≡ spec.no_cases kind }
    {
        OpenSwitch {
            kind,
            labels: Vec::new(alloc),
            values: IndexSet::new(alloc),
            has_default: false,
        }
    }

    /// Adds a case label of a value, which is converted to the promoted type.
    fn add(&mut self, place: Place, value: i128) -> Result<AddedCase, Memory>
        ensures added { IfOk result (λ a. a ≡ spec.added_case (switch_view self.old) value) }
        ensures after { IfOk result (λ _. switch_view self.new ≡ spec.with_case (switch_view self.old) place value) }
    {
        let value = converted(self.kind, value);
        let number = u32::try_from(self.labels.len()).map_err(|_| Memory)?;
        let is_repeated = self.values.contains(&value);
        self.labels.push(CaseLabel { place, value })?;
        self.values.insert(value)?;
        Ok(AddedCase {
            number,
            is_repeated,
        })
    }
}

impl BodyFlow {
    /// The flow of a body without labels, with its function's result.
    pub fn new(alloc: Global, result_type: CType) -> BodyFlow
        ensures { flow_view result ≡ spec.no_flow (view result_type) }
    {
        BodyFlow {
            alloc,
            result: result_type,
            labels: IndexMap::new(alloc),
            seen: Vec::new(alloc),
            switches: Vec::new(alloc),
            loops: 0,
            breakables: 0,
        }
    }

    /// Adds a label of a name, unless there is one.
    pub fn add_label(&mut self, name: u32) -> Result<(), Memory>
        ensures { IfOk result (λ _. flow_view self.new ≡ spec.with_label (flow_view self.old) name) }
    {
        if self.labels.get(&name).is_none() {
            let number = u32::try_from(self.seen.len()).map_err(|_| Memory)?;
            self.labels.insert(name, number)?;
            self.seen.push(false)?;
        }
        Ok(())
    }

    /// The number of a label.
    pub fn label(&self, name: u32) -> Option<u32>
        ensures { result ≡ spec.label_of (flow_view self.now) name }
    {
        self.labels.get(&name).copied()
    }

    /// How many labels the body has.
    pub fn label_count(&self) -> u32
        ensures { result ≡ spec.label_count (flow_view self.now) }
    {
        match u32::try_from(self.seen.len()) {
            Ok(count) => count,
            Err(_) => u32::MAX,
        }
    }

    /// Notes that a label stands there; whether it stood before.
    pub fn meet_label(&mut self, number: u32) -> bool
        ensures before { result ≡ spec.is_met (flow_view self.old) number }
        ensures after { flow_view self.new ≡ spec.with_met (flow_view self.old) number }
    {
        match self.seen.get_mut(number as usize) {
            Some(seen) => {
                let before = *seen;
                *seen = true;
                before
            }
            None => false,
        }
    }

    /// Opens a switch, which is the innermost one.
    pub fn open(&mut self, opened: OpenSwitch) -> Result<(), Memory>
        ensures { IfOk result (λ _. flow_view self.new ≡ spec.with_switch (flow_view self.old) (switch_view opened)) }
    {
        self.switches.push(opened)?;
        Ok(())
    }

    /// Closes the innermost switch, where one is open.
    pub fn close(&mut self) -> Option<OpenSwitch>
        ensures closed { option_map switch_view result ≡ spec.innermost (flow_view self.old) }
        ensures after { flow_view self.new ≡ spec.closed (flow_view self.old) }
    {
        self.switches.pop()
    }

    /// Adds a case label to the innermost switch; None where no switch is open.
    pub fn add_case(&mut self, place: Place, value: i128) -> Result<Option<AddedCase>, Memory>
        ensures added { IfOk result (λ a. a ≡ spec.flow_case (flow_view self.old) value) }
        ensures after { IfOk result (λ _. flow_view self.new ≡ spec.flow_with_case (flow_view self.old) place value) }
    {
        match self.switches.last_mut() {
            Some(open) => Ok(Some(open.add(place, value)?)),
            None => Ok(None),
        }
    }

    /// Notes a default label; whether the innermost switch had one. None where no switch is open.
    pub fn add_default(&mut self) -> Option<bool>
        ensures before { result ≡ spec.flow_default (flow_view self.old) }
        ensures after { flow_view self.new ≡ spec.flow_with_default (flow_view self.old) }
    {
        match self.switches.last_mut() {
            Some(open) => {
                let before = open.has_default;
                open.has_default = true;
                Some(before)
            }
            None => None,
        }
    }
}
