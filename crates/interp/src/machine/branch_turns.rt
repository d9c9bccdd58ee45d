//! Turns that choose what follows: conditions, lines that are read, and switches.
ghost use Rattle.std.specs.Prelude.{◌≡◌, Some, None, MatchResult};
ghost use Rattle.std.specs.Option.{option_map};
ghost use Rattle.cc_base.specs.declared.diagnostics.Place as place;
ghost use Rattle.c_layout.specs.CheckedTrees.{term_tree, statement_tree};
ghost use Rattle.c_layout.specs.CheckedUnits.{UnitView, unit_view};
ghost use Rattle.lower_conditions.specs.Tests.{named};
ghost use Rattle.memory_model.specs.Effects.Tests.{object};
ghost use Rattle.interp_accesses.specs.declared.worlds.Cause.TheVariants as cause;
ghost use Rattle.interp_accesses.specs.declared.worlds.Halt.TheVariants as halt;
ghost use Rattle.interp_operators.specs.Tests.SideViews.{side_view};
ghost use Rattle.semantics.specs.SourceMachine.BranchSteps as machine;
ghost use Rattle.semantics.specs.SourceMachine.LabelSearch.{found};
ghost use Rattle.semantics.specs.SourceMachine.SourceStates.{instance_of};
ghost use Rattle.semantics.specs.SourceMachine.TermTests.{test_if};
ghost use Rattle.semantics.specs.SourceMachine.SourceSteps.{turn_by};
ghost use Rattle.interp_stack.specs.StackViews.{on_term, on_line, on_statement, standing};
ghost use Rattle.interp_stack.specs.TestViews as tests;
ghost use Rattle.interp_stack.specs.declared.items.Use7.TheVariants as use_of;
ghost use Rattle.interp_stack.specs.declared.items.Way7.TheVariants as way;
ghost use Rattle.interp_steps.specs.MachineItems.MachineViews.{state_view};
ghost use Rattle.interp_steps.specs.MachineItems.Moves.{Moves, LandsOn, holds_on, tested_as};
ghost use Rattle.interp_statements.specs.LabelViews.{sought_view};

use c_layout::{Checked, CheckedStatement, CheckedTerm};
use cc_base::Rel;
use cfg::Scalar;
use interp_accesses::{Cause, Halt, is_false_value};
use interp_library::calls::fgets;
use interp_memory::Value7;
use interp_operators::tests::{Side7, Test7, opposite, pass_case, pass_test};
use interp_stack::{Item7, NamedSide7, NamedTest7, drop_loop, enter_first, open_scopes, test_of};
use interp_statements::{Sought7, case_of, find, follow, is_in};
use interp_steps::machine_items::{Machine, instance_of};
use interp_steps::operations::pop_value;
use lower_conditions::{NamedObject, named};

// ---- tests

fn tested_object(m: &Machine, found: NamedObject) -> Result<Side7, Halt>
    ensures { (u : UnitView) → MatchResult result (λ side. option_map (λ i. object i found.kind) (instance_of (state_view u m.now).names found.object) ≡ Some (side_view side)) (λ h. (h ≡ halt.Stops cause.Stuck) × (instance_of (state_view u m.now).names found.object ≡ None)) }
{
    let inst = instance_of(m.names.as_slice(), found.object)?;
    Ok(Side7::Object(inst, found.kind))
}

fn tested_side(m: &Machine, side_named: NamedSide7) -> Result<Side7, Halt>
    ensures { (u : UnitView) → MatchResult result (λ side. tested_as (state_view u m.now).names (tests.side_view side_named) ≡ Some (side_view side)) (λ h. (h ≡ halt.Stops cause.Stuck) × (tested_as (state_view u m.now).names (tests.side_view side_named) ≡ None)) }
{
    match side_named {
        NamedSide7::Object(found) => {
            let side = tested_object(m, found)?;
            Ok(side)
        }
        NamedSide7::Number(n) => Ok(Side7::Constant(n)),
        NamedSide7::Nothing => Ok(Side7::Nothing),
    }
}

// The relation that holds on the way.
fn relation_on(held: bool, rel: Rel) -> Rel
    ensures { result ≡ machine.relation_on held rel }
{
    if held { rel } else { opposite(rel) }
}

// The run goes on where a test agrees with memory.
fn testing(m: &mut Machine, unit: &Checked, test: NamedTest7, held: bool) -> Result<(), Halt>
    ensures control { m.new.control ≡ m.old.control }
    ensures moves { Moves (unit_view unit.now) (machine.testing (unit_view unit.now) (state_view (unit_view unit.now) m.old) (Some (tests.test_view test)) held) result m.new }
{
    let left = tested_object(m, test.left)?;
    let right = tested_side(m, test.right)?;
    pass_test(
        &mut m.world,
        &unit.model,
        Test7 {
            left,
            rel: relation_on(held, test.rel),
            right,
            common: test.common,
        },
    )
}

// ---- conditions

// A condition that is a test agrees with memory.
fn pass_known(
    m: &mut Machine,
    unit: &Checked,
    term: &CheckedTerm,
    is_test: bool,
    holds: bool,
) -> Result<(), Halt>
    ensures control { m.new.control ≡ m.old.control }
    ensures moves { Moves (unit_view unit.now) (machine.testing (unit_view unit.now) (state_view (unit_view unit.now) m.old) (test_if (unit_view unit.now) is_test (term_tree term.now)) holds) result m.new }
{
    if !is_test {
        return Ok(());
    }
    match test_of(term, unit.model.int) {
        Some(test) => testing(m, unit, test, holds),
        None => Ok(()),
    }
}

/// A condition goes on by the newest value.
pub fn choose(
    m: &mut Machine,
    unit: &Checked,
    term: &CheckedTerm,
    is_test: bool,
) -> Result<(), Halt>
    ensures { Moves (unit_view unit.now) (turn_by (unit_view unit.now) (state_view (unit_view unit.now) m.old) (on_term (unit_view unit.now) (use_of.Choose is_test) (term_tree term.now) (standing (unit_view unit.now) m.old.control.items)).items).reply result m.new }
{
    let value = pop_value(&mut m.values)?;
    let holds = !is_false_value(value);
    pass_known(m, unit, term, is_test, holds)?;
    match follow(&mut m.control, holds) {
        Ok(()) => Ok(()),
        Err(_) => Err(Halt::Memory),
    }
}

// Whether a condition on a line holds.
fn line_holds(wants_line: bool, none: bool) -> bool
    ensures { result ≡ holds_on wants_line none }
{
    if wants_line { !none } else { none }
}

/// A line is read, and a condition goes on by whether there was one.
pub fn read_line(m: &mut Machine, unit: &Checked, wants_line: bool) -> Result<(), Halt>
    ensures { (at : place.Place) → Moves (unit_view unit.now) (turn_by (unit_view unit.now) (state_view (unit_view unit.now) m.old) (on_line at wants_line (standing (unit_view unit.now) m.old.control.items)).items).reply result m.new }
{
    let stream = pop_value(&mut m.values)?;
    let size = pop_value(&mut m.values)?;
    let text = pop_value(&mut m.values)?;
    let line = fgets(&mut m.world, &unit.model, text, size, stream)?;
    let holds = line_holds(wants_line, is_false_value(line));
    match follow(&mut m.control, holds) {
        Ok(()) => Ok(()),
        Err(_) => Err(Halt::Memory),
    }
}

// ---- switches

// A case that is matched drops the labels of the integer object that is switched on.
fn matching(m: &mut Machine, unit: &Checked, found: NamedObject, value: i128) -> Result<(), Halt>
    ensures { Moves (unit_view unit.now) (machine.matching (unit_view unit.now) (state_view (unit_view unit.now) m.old) found found.kind value) result m.new }
{
    match found.kind {
        Scalar::Int(kind) => {
            let inst = instance_of(m.names.as_slice(), found.object)?;
            pass_case(&mut m.world, &unit.model, inst, kind, value)
        }
        Scalar::Pointer => Ok(()),
    }
}

fn on_case(
    m: &mut Machine,
    unit: &Checked,
    switched: &CheckedTerm,
    sought: Sought7,
    value: i128,
) -> Result<(), Halt>
    ensures { Moves (unit_view unit.now) (machine.on_case (unit_view unit.now) (named (term_tree switched.now)) (sought_view sought) value (state_view (unit_view unit.now) m.old)) result m.new }
{
    match (named(switched), sought) {
        (Some(found), Sought7::Case(_)) => matching(m, unit, found, value),
        (Some(_), _) => Ok(()),
        (None, _) => Ok(()),
    }
}

// Where there is no default label, the value of no label leads behind the body.
fn land_behind(control: &mut Vec<Item7>, sought: Sought7) -> Result<(), Halt>
    ensures { (u : UnitView) → MatchResult result (λ _. machine.landing (sought_view sought) None (standing u control.old.items).items ≡ Some (standing u control.new.items).items) (λ h. (h ≡ halt.Stops cause.Stuck) × (machine.landing (sought_view sought) None (standing u control.old.items).items ≡ None)) }
{
    match sought {
        Sought7::Other => {
            drop_loop(control);
            Ok(())
        }
        Sought7::Label(_) | Sought7::Case(_) => Err(Halt::Stops(Cause::Stuck)),
    }
}

// The list goes on at a label of a switch's body, or behind the body.
fn land_on<'a>(
    control: &mut Vec<Item7<'a>>,
    body: &'a CheckedStatement,
    sought: Sought7,
) -> Result<(), Halt>
    ensures { (u : UnitView) → let items = (standing u control.old.items).items in LandsOn (machine.landing (sought_view sought) (found u (sought_view sought) (statement_tree body.now) items) items) result (standing u control.new.items).items }
{
    if is_in(sought, body) {
        match find(control, sought, body) {
            Ok(()) => Ok(()),
            Err(_) => Err(Halt::Memory),
        }
    } else {
        land_behind(control, sought)
    }
}

// The run goes on there, behind the entries of what lives there.
fn land<'a>(m: &mut Machine<'a>, body: &'a CheckedStatement, sought: Sought7) -> Result<(), Halt>
    ensures { (u : UnitView) → Moves u (machine.land u (statement_tree body.now) (sought_view sought) (state_view u m.old)) result m.new }
{
    let alloc = m.world.alloc;
    let Ok(from) = open_scopes(alloc, m.control.as_slice()) else {
        return Err(Halt::Memory);
    };
    land_on(&mut m.control, body, sought)?;
    match enter_first(alloc, &mut m.control, from.as_slice()) {
        Ok(()) => Ok(()),
        Err(_) => Err(Halt::Memory),
    }
}

/// The newest value selects a label of a switch's body.
pub fn select<'a>(
    m: &mut Machine<'a>,
    unit: &Checked,
    statement: &'a CheckedStatement,
) -> Result<(), Halt>
    ensures { Moves (unit_view unit.now) (turn_by (unit_view unit.now) (state_view (unit_view unit.now) m.old) (on_statement way.Select (statement_tree statement.now) (standing (unit_view unit.now) m.old.control.items)).items).reply result m.new }
{
    match statement {
        CheckedStatement::Switch(_, switched, labels, _, _, body) => {
            match pop_value(&mut m.values)? {
                Value7::Ptr(_) => Err(Halt::Stops(Cause::Stuck)),
                Value7::Int(value, _) => {
                    let sought = case_of(labels.as_slice(), value);
                    on_case(m, unit, switched, sought, value)?;
                    land(m, body, sought)
                }
            }
        }
        _ => Err(Halt::Memory),
    }
}
