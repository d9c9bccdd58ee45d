//! Reads a unit: text lines and directives, file by file.
ghost use Rattle.std.specs.Prelude.{◌≡◌, ◌≤◌, ◌^◌, Some, None, true, nat_lt, length, map, string_bytes, [], IfOk, IfErr};
ghost use Rattle.c_layout.specs.Models.{is_model};
ghost use Rattle.c_preproc.specs.Names.{is_distinct};
ghost use Rattle.c_preproc.specs.Placed.{StandsIn, OpenIn, KnownIn, ReadIn};
ghost use Rattle.std.specs.Prelude.{ℕ, List, option_map};
ghost use Rattle.c_preproc.specs.Known.{known_of, reading_of, Gives, conditional, plain, line_of, line_as, directive_at, text_lines, is_header, header_number, only_header, include_asks, asked_as};
ghost use Rattle.c_layout.specs.declared.data_model.Model.{Model};
ghost use Rattle.cc_base.specs.Outside.{Files};
ghost use Rattle.c_preproc_directives.specs.OpenFiles.{opened_of, first_of};
ghost use Rattle.c_lexer.specs.FileTokens.{file_tokens};
ghost use Rattle.c_preproc.specs.Reading.{found_as};
ghost use Rattle.c_preproc.specs.Units.{world_of, sought, course, opening, opened_by, entered_as, entered, includer_in, include, step_into, directive, step, file_read, unit, unit_from};
ghost use Rattle.c_preproc.specs.Told.{UnitGives, Under, IsMissingStop, step_as, stacked, opened_if, unit_as, UnitFrom};
ghost use Rattle.c_preproc.specs.Causes.{Seen, IsMissing, seen_of, IsCaused, IsCausedFrom, IsOwn, Went};

use crate::file_names::FileNames;
use crate::file_paths::candidates;
use crate::file_search::{search, too_long};
use crate::found_file::FoundFile;
use crate::preprocessor_state::{State, end_if, first_name, refused, turn_else};
use c_layout::{Model, Unit7};
use c_lexer::lex;
use c_preproc_directives::{Directive, OpenFile, begins_directive, directive_named, header_name};
use c_preproc_macros::Lexeme;
use cc_base::{Kind, Place, Refusal, Stop, Text, Tree, TreeFault};
use std::alloc::Global;
use std::collections::VecDeque;

/// The most inclusions that may be open one in the other.
const DEEPEST: usize = 16;

/// The most inclusions of a unit.
const MOST_INCLUSIONS: u32 = 1024;

/// Opens a file whose bytes are known.
fn opened(alloc: Global, state: &mut State, file: u32, bytes: &[u8]) -> Result<OpenFile, Stop>
    requires { length bytes.now ≤ 2 ^ 20 }
    ensures own { IfErr result IsOwn }
    ensures given { Gives (opened_by file (known_of state.old) (file_tokens file bytes.now)) (λ f. opening (known_of state.new) (opened_of f)) result }
{
    let tokens = match lex(alloc, file, bytes) {
        Ok(tokens) => tokens,
        Err(stop) => return Err(stop),
    };
    let open = OpenFile::new(alloc, &mut state.spellings, file, tokens.as_slice())?;
    Ok(open)
}

/// The header that an `#include` asks for.
#[derive(Drop)]
struct Wanted {
    name: String,
    /// Whether its name stands in `"`.
    quoted: bool,
}

fn is_header(kind: Kind) -> bool
    ensures { result ≡ is_header kind }
{
    match kind {
        Kind::HeaderName => true,
        _ => false,
    }
}

/// The number of the spelling of a header name.
fn header_number(x: Lexeme) -> Option<u32>
    ensures { result ≡ header_number x }
{
    match x {
        Lexeme::Other(kind, text, _) => { if is_header(kind) { Some(text) } else { None } }
        _ => None,
    }
}

/// The header name that a line is.
fn only_header(line: &[Lexeme]) -> Option<u32>
    ensures { result ≡ only_header line.now }
{
    match line {
        [x] => header_number(*x),
        _ => None,
    }
}

/// The header that an `#include` asks for; `deepest` says that no further inclusion may be open in
/// this one.
fn asked(
    alloc: Global,
    state: &mut State,
    deepest: bool,
    place: Place,
    line: &[Lexeme],
) -> Result<Wanted, Stop>
    ensures own { IfErr result IsOwn }
    ensures given { Gives (include_asks deepest place line.now (known_of state.old)) (λ w. asked_as (known_of state.new) w) result }
{
    let Some(number) = only_header(line) else {
        return Err(refused(place, Refusal::BadDirective));
    };
    if deepest {
        return Err(refused(place, Refusal::IncludeDepth));
    }
    if MOST_INCLUSIONS <= state.inclusions {
        return Err(refused(place, Refusal::IncludeDepth));
    }
    state.inclusions += 1;
    match header_name(state.spellings.text(number)) {
        None => Err(refused(place, Refusal::BadDirective)),
        Some(header) => {
            let name = String::from_str(alloc, header.name)?;
            Ok(Wanted {
                name,
                quoted: header.quoted,
            })
        }
    }
}

/// `#include`: the file that is included, unless it has `#pragma once`.
fn include<T: Tree>(
    alloc: Global,
    tree: &mut T,
    dirs: &[String],
    model: &Model,
    files: &mut FileNames,
    state: &mut State,
    top: u32,
    depth: usize,
    place: Place,
    line: &[Lexeme],
) -> Result<Option<OpenFile>, Stop>
    requires { is_model model.now ≡ true }
    ensures went { Went (T.files tree.old) (T.files tree.new) (T.faults tree.old) (T.faults tree.new) (T.taken tree.old) (T.taken tree.new) }
    ensures reads { Under (T.files tree.old) (map string_bytes dirs.now) model.now (λ w. UnitGives (include w top (nat_lt 16 depth) place line.now (known_of state.old) files.old) (λ o. entered_as (known_of state.new) files.new (opened_if o)) files.new result) }
    ensures cause { IfErr result (IsCaused (seen_of (T.files tree.old) (T.faults tree.old) (T.faults tree.new) (T.taken tree.old) (T.taken tree.new)) (map string_bytes dirs.now) model.now files.new) }
{
    let Wanted { name, quoted } = match asked(alloc, state, depth > DEEPEST, place, line) {
        Ok(wanted) => wanted,
        Err(stop) => return Err(stop),
    };
    let includer = includer_of(files, top, quoted);
    let searched = candidates(alloc, includer, dirs, name.as_str())?;
    match search(
        alloc,
        tree,
        searched.as_slice(),
        name.as_str(),
        model,
        files,
    ) {
        Err(stop) => Err(stop),
        Ok(held) => match held {
            None => Err(missing(alloc, name.as_str(), place)),
            Some(found) => enter(alloc, files, state, found),
        },
    }
}

/// The refusal of a header that no file and no built-in header is.
fn missing(alloc: Global, name: &str, place: Place) -> Stop
    ensures stop { IsMissingStop place name.now result }
    ensures cause { (seen : Seen) (dirs : List (List ℕ)) (model : Model) (names : List (List ℕ)) → IsMissing seen dirs model names name.now → IsCaused seen dirs model names result }
{
    match Text::from_bytes(alloc, name.as_bytes()) {
        Ok(text) => refused(place, Refusal::HeaderMissing(text)),
        Err(_) => Stop::Memory,
    }
}

/// The name of the including file, where its directory is searched.
fn includer_of(files: &FileNames, top: u32, quoted: bool) -> Option<&str>
    ensures { option_map (λ s. s.now) result ≡ includer_in files.now top quoted }
{
    if quoted { files.name(top) } else { None }
}

/// Opens a file that was found, unless it has `#pragma once`.
fn enter(
    alloc: Global,
    files: &mut FileNames,
    state: &mut State,
    found: FoundFile,
) -> Result<Option<OpenFile>, Stop>
    requires { length found.bytes.items ≤ 1048576 }
    ensures own { IfErr result IsOwn }
    ensures given { UnitGives (entered (found_as found) (known_of state.old) files.old) (λ o. entered_as (known_of state.new) files.new (opened_if o)) files.new result }
{
    let file = files.number(alloc, found.name.as_str())?;
    if state.is_once(file) {
        return Ok(None);
    }
    match opened(alloc, state, file, found.bytes.as_slice()) {
        Ok(open) => Ok(Some(open)),
        Err(stop) => Err(stop),
    }
}

/// A directive of an if-section.
fn conditional(
    alloc: Global,
    char_signed: bool,
    state: &mut State,
    top: &mut OpenFile,
    directive: Directive,
    place: Place,
    line: &[Lexeme],
) -> Result<(), Stop>
    ensures own { IfErr result IsOwn }
    ensures given { Gives (conditional char_signed directive place line.now (reading_of state.old top.old)) (λ _. reading_of state.new top.new) result }
{
    match directive {
        Directive::If => state.begin_if(alloc, char_signed, top, place, line),
        Directive::Ifdef => state.begin_ifdef(top, true, place, line),
        Directive::Ifndef => state.begin_ifdef(top, false, place, line),
        Directive::Elif => state.turn_elif(alloc, char_signed, top, place, line),
        Directive::Else => turn_else(top, place, line),
        Directive::Endif => end_if(top, place, line),
        _ => Ok(()),
    }
}

/// A directive that is no conditional one and no `#include`.
fn plain(
    alloc: Global,
    state: &mut State,
    directive: Directive,
    file: u32,
    place: Place,
    line: &[Lexeme],
    behind: &[Lexeme],
) -> Result<(), Stop>
    ensures own { IfErr result IsOwn }
    ensures given { Gives (plain directive file place line.now behind.now (known_of state.old)) (λ _. known_of state.new) result }
{
    match directive {
        Directive::Define => state.define(alloc, place, line),
        Directive::Undef => state.undefine(place, line),
        Directive::Error => Err(refused(place, Refusal::ErrorDirective)),
        Directive::Pragma => state.pragma(file, line),
        _ => {
            if behind.is_empty() {
                Ok(())
            } else {
                Err(refused(place, Refusal::BadDirective))
            }
        }
    }
}

/// A directive of an if-section, which includes no file.
fn conditional_directive(
    alloc: Global,
    char_signed: bool,
    state: &mut State,
    top: &mut OpenFile,
    directive: Directive,
    place: Place,
    line: &[Lexeme],
) -> Result<Option<OpenFile>, Stop>
    ensures own { IfErr result IsOwn }
    ensures none { IfOk result (λ o. o ≡ None) }
    ensures given { Gives (conditional char_signed directive place line.now (reading_of state.old top.old)) (λ _. reading_of state.new top.new) result }
{
    match conditional(alloc, char_signed, state, top, directive, place, line) {
        Ok(()) => Ok(None),
        Err(stop) => Err(stop),
    }
}

/// A directive that is no conditional one and no `#include`, which includes no file.
fn plain_directive(
    alloc: Global,
    state: &mut State,
    directive: Directive,
    file: u32,
    place: Place,
    line: &[Lexeme],
    behind: &[Lexeme],
) -> Result<Option<OpenFile>, Stop>
    ensures own { IfErr result IsOwn }
    ensures none { IfOk result (λ o. o ≡ None) }
    ensures given { Gives (plain directive file place line.now behind.now (known_of state.old)) (λ _. known_of state.new) result }
{
    match plain(alloc, state, directive, file, place, line, behind) {
        Ok(()) => Ok(None),
        Err(stop) => Err(stop),
    }
}

/// The directive of a line behind its `#`, and what follows the directive's name.
fn directive_of<'a>(state: &State, behind: &'a [Lexeme]) -> (Directive, &'a [Lexeme])
    ensures { line_as result ≡ line_of (known_of state.now).texts behind.now }
{
    match first_name(behind) {
        Some((name, rest)) => (directive_named(state.spellings.text(name)), rest),
        None => (Directive::Unknown, behind),
    }
}

/// Does what a directive says; the file that it includes, if it includes one.
fn directive<T: Tree>(
    alloc: Global,
    tree: &mut T,
    dirs: &[String],
    model: &Model,
    files: &mut FileNames,
    state: &mut State,
    top: &mut OpenFile,
    depth: usize,
    place: Place,
    behind: &[Lexeme],
) -> Result<Option<OpenFile>, Stop>
    requires { is_model model.now ≡ true }
    ensures went { Went (T.files tree.old) (T.files tree.new) (T.faults tree.old) (T.faults tree.new) (T.taken tree.old) (T.taken tree.new) }
    ensures reads { Under (T.files tree.old) (map string_bytes dirs.now) model.now (λ w. UnitGives (directive w (nat_lt 16 depth) place behind.now (line_of (known_of state.old).texts behind.now) (opened_of top.old) (course (known_of state.old) files.old)) (λ o. step_into (opened_if o) (opened_of top.new) (course (known_of state.new) files.new)) files.new result) }
    ensures cause { IfErr result (IsCaused (seen_of (T.files tree.old) (T.faults tree.old) (T.faults tree.new) (T.taken tree.old) (T.taken tree.new)) (map string_bytes dirs.now) model.now files.new) }
{
    let (directive, line) = directive_of(state, behind);
    if directive.is_conditional() {
        return conditional_directive(alloc, model.char_signed, state, top, directive, place, line);
    }
    if top.sections.is_skipping() {
        return Ok(None);
    }
    if directive.is_include() {
        return include(
            alloc, tree, dirs, model, files, state, top.file, depth, place, line,
        );
    }
    plain_directive(alloc, state, directive, top.file, place, line, behind)
}

/// The place of the directive that a token begins.
fn directive_place(state: &State, next: Option<Lexeme>) -> Option<Place>
    ensures { result ≡ directive_at (known_of state.now).texts next }
{
    match next {
        Some(x) => {
            if begins_directive(&state.spellings, x) {
                Some(x.mark().place)
            } else {
                None
            }
        }
        None => None,
    }
}

/// Reads the text lines up to the next directive.
fn text_lines(alloc: Global, state: &mut State, top: &mut OpenFile) -> Result<(), Stop>
    ensures own { IfErr result IsOwn }
    ensures given { Gives (text_lines (reading_of state.old top.old)) (λ _. reading_of state.new top.new) result }
{
    let list = top.text_lines(alloc, &state.spellings)?;
    if top.sections.is_skipping() {
        return Ok(());
    }
    let ends = directive_place(state, top.next());
    state.text(alloc, list.as_slice(), ends)
}

/// What one step of the reading leaves of a file.
#[derive(Drop)]
enum Step {
    /// The file is at its end.
    Ended,
    /// It goes on.
    GoesOn,
    /// Another file is included here.
    Includes(OpenFile),
}

/// Reads the text lines up to the next directive, behind which the file goes on.
fn text_step(alloc: Global, state: &mut State, top: &mut OpenFile) -> Result<Step, Stop>
    ensures own { IfErr result IsOwn }
    ensures goes_on { IfOk result (λ s. s ≡ Step.GoesOn) }
    ensures given { Gives (text_lines (reading_of state.old top.old)) (λ _. reading_of state.new top.new) result }
{
    match text_lines(alloc, state, top) {
        Ok(()) => Ok(Step::GoesOn),
        Err(stop) => Err(stop),
    }
}

/// Reads the next directive or the text lines before it.
fn read_step<T: Tree>(
    alloc: Global,
    tree: &mut T,
    dirs: &[String],
    model: &Model,
    files: &mut FileNames,
    state: &mut State,
    top: &mut OpenFile,
    depth: usize,
) -> Result<Step, Stop>
    requires { is_model model.now ≡ true }
    ensures went { Went (T.files tree.old) (T.files tree.new) (T.faults tree.old) (T.faults tree.new) (T.taken tree.old) (T.taken tree.new) }
    ensures reads { Under (T.files tree.old) (map string_bytes dirs.now) model.now (λ w. UnitGives (step w (nat_lt 16 depth) (opened_of top.old) (course (known_of state.old) files.old)) (step_as (opened_of top.new) (course (known_of state.new) files.new)) files.new result) }
    ensures cause { IfErr result (IsCaused (seen_of (T.files tree.old) (T.faults tree.old) (T.faults tree.new) (T.taken tree.old) (T.taken tree.new)) (map string_bytes dirs.now) model.now files.new) }
{
    let next = top.next();
    if next.is_none() {
        return match top.sections.first_open() {
            None => Ok(Step::Ended),
            Some(place) => Err(refused(place, Refusal::UnevenConditional)),
        };
    }
    let Some(place) = directive_place(state, next) else {
        return text_step(alloc, state, top);
    };
    let behind = top.directive_line(alloc)?;
    match directive(
        alloc,
        tree,
        dirs,
        model,
        files,
        state,
        top,
        depth,
        place,
        behind.as_slice(),
    )? {
        None => Ok(Step::GoesOn),
        Some(open) => Ok(Step::Includes(open)),
    }
}

/// Puts what a step leaves of a file on the files in which it is included, the innermost first.
fn put_back(stack: &mut VecDeque<OpenFile>, top: OpenFile, left: Step) -> Result<(), Stop>
    ensures own { IfErr result (λ s. s ≡ Stop.Memory) }
    ensures files { IfOk result (λ _. map opened_of stack.new.items ≡ stacked (opened_of top) left (map opened_of stack.old.items)) }
{
    match left {
        Step::Ended => Ok(()),
        Step::GoesOn => Ok(stack.push_front(top)?),
        Step::Includes(file) => {
            stack.push_front(top)?;
            stack.push_front(file)?;
            Ok(())
        }
    }
}

/// Reads all files from the main one on.
fn read_all<T: Tree>(
    alloc: Global,
    tree: &mut T,
    dirs: &[String],
    model: &Model,
    files: &mut FileNames,
    state: &mut State,
    main: OpenFile,
) -> Result<(), Stop>
    requires { is_model model.now ≡ true }
    ensures went { Went (T.files tree.old) (T.files tree.new) (T.faults tree.old) (T.faults tree.new) (T.taken tree.old) (T.taken tree.new) }
    ensures told { (held : Files) → T.files tree.old ≡ Some held → UnitGives (file_read (world_of (sought held) (map string_bytes dirs.now) model.now) 16 (opened_of main) (course (known_of state.old) files.old)) (λ _. course (known_of state.new) files.new) files.new result }
    ensures placed { OpenIn (length files.old) (opened_of main) → KnownIn (length files.old) (known_of state.old) → ReadIn (length files.new) (known_of state.new) result }
    ensures cause { IfErr result (IsCaused (seen_of (T.files tree.old) (T.faults tree.old) (T.faults tree.new) (T.taken tree.old) (T.taken tree.new)) (map string_bytes dirs.now) model.now files.new) }
{
    let mut stack = VecDeque::new(alloc);
    stack.push_front(main)?;
    // Each step takes a token of a file or ends one, of which there are at most so many.
    'steps: for _ in 0..1_048_577u64 * 1_025 {
        let Some(mut top) = stack.pop_front() else {
            return Ok(());
        };
        let depth = stack.len() + 1;
        match read_step(alloc, tree, dirs, model, files, state, &mut top, depth) {
            Err(stop) => return Err(stop),
            Ok(left) => put_back(&mut stack, top, left)?,
        }
    }
    Err(Stop::Memory)
}

/// Reads a unit whose main file is at hand.
fn unit_of<T: Tree>(
    alloc: Global,
    tree: &mut T,
    main: &str,
    bytes: &[u8],
    dirs: &[String],
    model: &Model,
    files: &mut FileNames,
) -> Result<Unit7, Stop>
    requires model { is_model model.now ≡ true }
    requires size { length bytes.now ≤ 2 ^ 20 }
    ensures went { Went (T.files tree.old) (T.files tree.new) (T.faults tree.old) (T.faults tree.new) (T.taken tree.old) (T.taken tree.new) }
    ensures told { (held : Files) → T.files tree.old ≡ Some held → files.old ≡ [] → UnitGives (unit (world_of (sought held) (map string_bytes dirs.now) model.now) main.now bytes.now) (unit_as files.new) files.new result }
    ensures cause { IfErr result (IsCaused (seen_of (T.files tree.old) (T.faults tree.old) (T.faults tree.new) (T.taken tree.old) (T.taken tree.new)) (map string_bytes dirs.now) model.now files.new) }
    ensures placed { StandsIn (length files.new) result }
    ensures model { IfOk result (λ u. u.model ≡ model.now) }
    ensures few { IfOk result (λ u. length u.tokens ≤ 131072) }
{
    let file = files.number(alloc, main)?;
    let mut state = State::new(alloc)?;
    let open = match opened(alloc, &mut state, file, bytes) {
        Ok(open) => open,
        Err(stop) => return Err(stop),
    };
    match read_all(alloc, tree, dirs, model, files, &mut state, open) {
        Ok(()) => Ok(Unit7 {
            tokens: state.out.into_tokens(),
            model: *model,
        }),
        Err(stop) => Err(stop),
    }
}

/// Reads a unit from its main file on.
fn unit_from<T: Tree>(
    alloc: Global,
    tree: &mut T,
    main: &str,
    dirs: &[String],
    model: &Model,
    files: &mut FileNames,
) -> Result<Unit7, Stop>
    requires { is_model model.now ≡ true }
    ensures went { Went (T.files tree.old) (T.files tree.new) (T.faults tree.old) (T.faults tree.new) (T.taken tree.old) (T.taken tree.new) }
    ensures told { (held : Files) → T.files tree.old ≡ Some held → files.old ≡ [] → UnitFrom (unit_from held (map string_bytes dirs.now) model.now main.now) files.new result }
    ensures cause { IfErr result (IsCausedFrom main.now (seen_of (T.files tree.old) (T.faults tree.old) (T.faults tree.new) (T.taken tree.old) (T.taken tree.new)) (map string_bytes dirs.now) model.now files.new) }
    ensures placed { StandsIn (length files.new) result }
    ensures model { IfOk result (λ u. u.model ≡ model.now) }
    ensures few { IfOk result (λ u. length u.tokens ≤ 131072) }
{
    let mut bytes = Vec::new(alloc);
    match tree.read(alloc, main, &mut bytes) {
        Ok(()) => unit_of(alloc, tree, main, bytes.as_slice(), dirs, model, files),
        Err(TreeFault::Missing) => Err(Stop::NotHeld),
        Err(TreeFault::TooLong) => Err(too_long(alloc, files, main)),
        Err(TreeFault::Failed) => Err(Stop::ReadFault),
        Err(TreeFault::Memory) => Err(Stop::Memory),
    }
}

/// The tokens of a unit after translation phase 4, whose main file is handed in under the name
/// `main`. `files` is empty before; on every answer it holds the names of the files met so far, in
/// order of first inclusion, the main file first. Headers are searched as `expand` says.
///
/// # Errors
///
/// As `expand`, but never `NotHeld`.
pub fn expand_bytes<T: Tree>(
    alloc: Global,
    tree: &mut T,
    main: &str,
    bytes: &[u8],
    dirs: &[String],
    model: &Model,
    files: &mut Vec<String>,
) -> Result<Unit7, Stop>
    requires model { is_model model.now ≡ true }
    requires size { length bytes.now ≤ 2 ^ 20 }
    requires empty { files.old.items ≡ [] }
    ensures went { Went (T.files tree.old) (T.files tree.new) (T.faults tree.old) (T.faults tree.new) (T.taken tree.old) (T.taken tree.new) }
    ensures told { (held : Files) → T.files tree.old ≡ Some held → UnitGives (unit (world_of (sought held) (map string_bytes dirs.now) model.now) main.now bytes.now) (unit_as (map string_bytes files.new.items)) (map string_bytes files.new.items) result }
    ensures cause { IfErr result (IsCaused (seen_of (T.files tree.old) (T.faults tree.old) (T.faults tree.new) (T.taken tree.old) (T.taken tree.new)) (map string_bytes dirs.now) model.now (map string_bytes files.new.items)) }
    ensures distinct { is_distinct (map string_bytes files.new.items) ≡ true }
    ensures placed { StandsIn (length files.new.items) result }
    ensures model { IfOk result (λ u. u.model ≡ model.now) }
    ensures few { IfOk result (λ u. length u.tokens ≤ 131072) }
{
    let mut names = FileNames::new(alloc);
    let answer = unit_of(alloc, tree, main, bytes, dirs, model, &mut names);
    *files = names.into_names();
    answer
}

/// The tokens of a unit after translation phase 4, from its main file on. `#include "n"` tries the
/// directory of the including file, then each of `dirs`, then the built-in headers; `#include <n>`
/// leaves out the first. `files` is empty before; on every answer it holds the names of the files
/// met so far, in order of first inclusion, a file that was too long included.
///
/// # Errors
///
/// `NotHeld` where the tree does not hold the main file, `ReadFault` where a read failed, `Refused`
/// by the first refusal in the order of the expansion, `Memory` for want of memory.
pub fn expand<T: Tree>(
    alloc: Global,
    tree: &mut T,
    main: &str,
    dirs: &[String],
    model: &Model,
    files: &mut Vec<String>,
) -> Result<Unit7, Stop>
    requires model { is_model model.now ≡ true }
    requires empty { files.old.items ≡ [] }
    ensures went { Went (T.files tree.old) (T.files tree.new) (T.faults tree.old) (T.faults tree.new) (T.taken tree.old) (T.taken tree.new) }
    ensures told { (held : Files) → T.files tree.old ≡ Some held → UnitFrom (unit_from held (map string_bytes dirs.now) model.now main.now) (map string_bytes files.new.items) result }
    ensures cause { IfErr result (IsCausedFrom main.now (seen_of (T.files tree.old) (T.faults tree.old) (T.faults tree.new) (T.taken tree.old) (T.taken tree.new)) (map string_bytes dirs.now) model.now (map string_bytes files.new.items)) }
    ensures distinct { is_distinct (map string_bytes files.new.items) ≡ true }
    ensures placed { StandsIn (length files.new.items) result }
    ensures model { IfOk result (λ u. u.model ≡ model.now) }
    ensures few { IfOk result (λ u. length u.tokens ≤ 131072) }
{
    let mut names = FileNames::new(alloc);
    let answer = unit_from(alloc, tree, main, dirs, model, &mut names);
    *files = names.into_names();
    answer
}
