//! Finds an included file (6.10.2).
ghost use Rattle.std.specs.Prelude.{◌≡◌, ◌≤◌, ◌++◌, ◌∷◌, [], ℕ, Option, None, Some, true, length, map, string_bytes, option_map, slice_get, codes, IfOk, IfErr, IfSome};
ghost use Rattle.c_library.specs.Headers.Headers.{header_text};
ghost use Rattle.c_layout.specs.Models.{is_model};
ghost use Rattle.c_preproc.specs.Searching.{searched_names, built_in};
ghost use Rattle.std.specs.Prelude.{List};
ghost use Rattle.c_layout.specs.declared.data_model.Model.{Model};
ghost use Rattle.c_preproc.specs.Causes.{Seen, seen_of, IsCaused, IsTooLong, Went};
ghost use Rattle.c_preproc.specs.Reading.{found_if, ReadAnswers, SearchAnswers};
ghost use Rattle.c_preproc.specs.Told.{IsLongStop, Reads, Seeks};

use crate::file_names::FileNames;
use crate::found_file::FoundFile;
use c_layout::Model;
use c_library::headers::header;
use cc_base::{Fault, Place, Refusal, Stop, Tree, TreeFault};
use std::alloc::Global;

/// The refusal of a file that is too long; its name joins the list.
pub fn too_long(alloc: Global, files: &mut FileNames, name: &str) -> Stop
    ensures long { IsLongStop name.now files.old files.new result }
    ensures cause { (seen : Seen) (dirs : List (List ℕ)) (model : Model) → IsTooLong seen name.now → IsCaused seen dirs model files.new result }
{
    match files.number(alloc, name) {
        Err(_) => Stop::Memory,
        Ok(file) => Stop::Refused(Fault {
            place: Place {
                file,
                line: 1,
                col: 1,
            },
            refusal: Refusal::FileTooLong {
                count: 1_048_577,
                limit: 1_048_576,
            },
        }),
    }
}

/// Reads a file if it is held.
#[tactic(auto, using(crate::proofs::Told::read_held, crate::proofs::Told::read_missing, crate::proofs::Told::read_memory, crate::proofs::Told::read_fault))]
fn read_if_held<T: Tree>(
    alloc: Global,
    tree: &mut T,
    name: &str,
    files: &mut FileNames,
) -> Result<Option<FoundFile>, Stop>
    ensures went { Went (T.files tree.old) (T.files tree.new) (T.faults tree.old) (T.faults tree.new) (T.taken tree.old) (T.taken tree.new) }
    ensures fits { IfOk result (λ o. IfSome o (λ f. length f.bytes.items ≤ 1048576)) }
    ensures reads { Reads (T.files tree.old) name.now files.old files.new result }
    ensures answer { (dirs : List (List ℕ)) (model : Model) → ReadAnswers (seen_of (T.files tree.old) (T.faults tree.old) (T.faults tree.new) (T.taken tree.old) (T.taken tree.new)) dirs name.now model files.new result }
{
    let text = String::from_str(alloc, name)?;
    let mut bytes = Vec::new(alloc);
    match tree.read(alloc, name, &mut bytes) {
        Ok(()) => Ok(Some(FoundFile { name: text, bytes })),
        Err(TreeFault::Missing) => Ok(None),
        Err(TreeFault::TooLong) => Err(too_long(alloc, files, name)),
        Err(TreeFault::Failed) => Err(Stop::ReadFault),
        Err(TreeFault::Memory) => Err(Stop::Memory),
    }
}

/// A built-in header.
fn built_in(alloc: Global, name: &str, model: &Model) -> Result<Option<FoundFile>, Stop>
    requires { is_model model.now ≡ true }
    ensures fits { IfOk result (λ o. IfSome o (λ f. length f.bytes.items ≤ 1048576)) }
    ensures value { IfOk result (λ o. found_if o ≡ built_in name.now model.now) }
    ensures error { IfErr result (λ s. s ≡ Stop.Memory) }
{
    let Some(text) = header(name, model) else {
        return Ok(None);
    };
    if text.len() > 1_048_576 {
        return Err(Stop::Memory);
    }
    let bytes = Vec::from_slice(alloc, text)?;
    let name = format!(in alloc; "<{name}>")?;
    Ok(Some(FoundFile { name, bytes }))
}

/// Finds an included file: the first of some names that is held, or else the built-in header.
pub fn search<T: Tree>(
    alloc: Global,
    tree: &mut T,
    searched: &[String],
    name: &str,
    model: &Model,
    files: &mut FileNames,
) -> Result<Option<FoundFile>, Stop>
    requires { is_model model.now ≡ true }
    ensures went { Went (T.files tree.old) (T.files tree.new) (T.faults tree.old) (T.faults tree.new) (T.taken tree.old) (T.taken tree.new) }
    ensures fits { IfOk result (λ o. IfSome o (λ f. length f.bytes.items ≤ 1048576)) }
    ensures seeks { Seeks (T.files tree.old) (map string_bytes searched.now) (built_in name.now model.now) files.old files.new result }
    ensures answer { (dirs : List (List ℕ)) → SearchAnswers (seen_of (T.files tree.old) (T.faults tree.old) (T.faults tree.new) (T.taken tree.old) (T.taken tree.new)) dirs (map string_bytes searched.now) name.now model.now files.new result }
{
    for candidate in searched {
        match read_if_held(alloc, tree, candidate.as_str(), files) {
            Err(stop) => return Err(stop),
            Ok(held) => match held {
                Some(found) => return Ok(Some(found)),
                None => {}
            },
        }
    }
    built_in(alloc, name, model)
}
