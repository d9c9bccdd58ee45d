//! Calls.
ghost use Rattle.std.specs.Prelude.{◌≡◌, ◌++◌, IfOk, map};
ghost use Rattle.std.specs.Option.{option_map};
ghost use Rattle.c_layout.specs.Types.{view};
ghost use Rattle.c_layout.specs.CheckedTrees.{term_tree, term_trees};
ghost use Rattle.lower_templates.specs.Worklist.Pieces.{target_view};
ghost use Rattle.lower_templates.specs.Worklist.Plans.{plan};
ghost use Rattle.lower_templates.specs.Worklist.Settings.{setting};
ghost use Rattle.lower_expressions.specs.Calls as spec;

use c_layout::{CType, CheckedTerm, LibFn};
use cc_base::Place;
use cfg::{EdgeKind, Operation};
use lower_templates::worklist::{BaseName, Builder, Exit, OwnCall, Piece, Setting, Work, behind};
use std::alloc::{AllocError, Global};

/// Adds the arguments from left to right, each in a temporary of its own.
fn push_arguments<'a>(
    builder: &mut Builder<'a>,
    arguments: &'a [CheckedTerm],
    depth: u32,
) -> Result<(), AllocError>
    ensures { IfOk result (λ _. plan builder.new ≡ spec.argued (term_trees (map term_tree arguments.now)) depth (plan builder.old)) }
{
    let mut temp = depth;
    for argument in arguments {
        builder.add(Work::Value(argument, temp))?;
        temp = behind(temp, 1);
    }
    Ok(())
}

/// The temporaries of arguments.
fn argument_temps(
    alloc: Global,
    arguments: &[CheckedTerm],
    depth: u32,
) -> Result<Vec<u32>, AllocError>
    ensures { IfOk result (λ v. v.items ≡ spec.argument_temps (term_trees (map term_tree arguments.now)) depth) }
{
    let mut temps = Vec::new(alloc);
    let mut temp = depth;
    for _argument in arguments {
        temps.push(temp)?;
        temp = behind(temp, 1);
    }
    Ok(temps)
}

/// A call of a function of the unit.
pub fn own_call<'a>(
    builder: &mut Builder<'a>,
    place: Place,
    function: u32,
    arguments: &'a [CheckedTerm],
    used: bool,
    depth: u32,
) -> Result<(), AllocError>
    ensures { IfOk result (λ _. plan builder.new ≡ spec.own_call place function (term_trees (map term_tree arguments.now)) used depth (plan builder.old)) }
{
    push_arguments(builder, arguments, depth)?;
    builder.add(Work::Ready(Piece::Call(OwnCall {
        place,
        function,
        depth,
        used,
    })))
}

fn result_temp(function: LibFn, depth: u32) -> Option<u32>
    ensures { result ≡ spec.result_temp function depth }
{
    if function.gives() { Some(depth) } else { None }
}

/// The newest base of an allocation.
fn allocated<'a>(
    builder: &mut Builder<'a>,
    function: LibFn,
    target: Option<&'a CType>,
) -> Result<Option<u32>, AllocError>
    ensures { IfOk result (λ b. spec.sited b (plan builder.new) ≡ spec.allocated function (target_view target.entry) (plan builder.old)) }
{
    if function.signature().allocates {
        let base = builder.base(BaseName::Allocation(target))?;
        Ok(Some(base))
    } else {
        Ok(None)
    }
}

/// The size of the type to whose pointer an allocation is converted.
fn target_size(cx: &Setting, target: &Option<CType>) -> Result<Option<u64>, AllocError>
    ensures { IfOk result (λ n. n ≡ spec.target_size (setting cx.now) (option_map view target.now)) }
{
    match target {
        Some(t) => {
            let size = cx.bytes(t)?;
            Ok(Some(size))
        }
        None => Ok(None),
    }
}

/// A library call that does not end its block.
fn plain_call<'a>(
    cx: &Setting<'a>,
    builder: &mut Builder<'a>,
    place: Place,
    function: LibFn,
    arguments: &'a [CheckedTerm],
    target: &'a Option<CType>,
    depth: u32,
) -> Result<(), AllocError>
    ensures { IfOk result (λ _. plan builder.new ≡ spec.plain_call (setting cx.now) place function (term_trees (map term_tree arguments.now)) (option_map view target.now) depth (plan builder.old)) }
{
    push_arguments(builder, arguments, depth)?;
    let temps = argument_temps(builder.alloc, arguments, depth)?;
    let size = target_size(cx, target)?;
    let base = allocated(builder, function, target.as_ref())?;
    let call = Operation::Library(result_temp(function, depth), function, temps, base, size);
    builder.emit(place, call)
}

/// A call of `fgets` for its value: both edges go on behind it.
fn line_value<'a>(
    builder: &mut Builder<'a>,
    place: Place,
    arguments: &'a [CheckedTerm],
    depth: u32,
) -> Result<(), AllocError>
    ensures { IfOk result (λ _. plan builder.new ≡ spec.line_value place (term_trees (map term_tree arguments.now)) depth (plan builder.old)) }
{
    let after = builder.new_labels(1)?;
    read_line(builder, place, arguments, depth, Some(depth), after, after)?;
    builder.mark(after)
}

/// A library call (7.4, 7.21, 7.22 and 7.24 of ISO/IEC 9899:2011).
pub fn library_call<'a>(
    cx: &Setting<'a>,
    builder: &mut Builder<'a>,
    place: Place,
    function: LibFn,
    arguments: &'a [CheckedTerm],
    target: &'a Option<CType>,
    depth: u32,
) -> Result<(), AllocError>
    ensures { IfOk result (λ _. plan builder.new ≡ spec.library_call (setting cx.now) place function (term_trees (map term_tree arguments.now)) (option_map view target.now) depth (plan builder.old)) }
{
    if function.signature().reads_line {
        line_value(builder, place, arguments, depth)
    } else {
        plain_call(cx, builder, place, function, arguments, target, depth)
    }
}

/// The edges of a call of `fgets`.
fn line_exits(alloc: Global, none: u32, some: u32) -> Result<Vec<Exit>, AllocError>
    ensures { IfOk result (λ v. spec.exits v.items ≡ spec.line_exits none some) }
{
    Ok(vec![in alloc;
        Exit {
            to: none,
            kind: EdgeKind::NoLine
        },
        Exit {
            to: some,
            kind: EdgeKind::Line
        },
    ]?)
}

/// A call of `fgets` (7.21.7.2), which ends its block.
pub fn read_line<'a>(
    builder: &mut Builder<'a>,
    place: Place,
    arguments: &'a [CheckedTerm],
    depth: u32,
    to_temp: Option<u32>,
    none: u32,
    some: u32,
) -> Result<(), AllocError>
    ensures { IfOk result (λ _. plan builder.new ≡ spec.read_line place (term_trees (map term_tree arguments.now)) depth to_temp none some (plan builder.old)) }
{
    push_arguments(builder, arguments, depth)?;
    let exits = line_exits(builder.alloc, none, some)?;
    let read = Operation::ReadLine(to_temp, depth, behind(depth, 1), behind(depth, 2));
    builder.close(place, read, exits)
}
