//! All library calls by name.
ghost use Rattle.std.specs.Prelude.{◌≡◌, true, map};
ghost use Rattle.c_layout.specs.Models.{is_model};
ghost use Rattle.memory_model.specs.Effects.Worlds.{goes, behind};
ghost use Rattle.memory_model.specs.Effects.AllocationCalls as allocations;
ghost use Rattle.memory_model.specs.Effects.MemoryCalls as memory;
ghost use Rattle.memory_model.specs.Effects.StringCalls as strings;
ghost use Rattle.memory_model.specs.Effects.LibraryCalls as calls;
ghost use Rattle.interp_memory.specs.ByteViews.{scalar_view};
ghost use Rattle.interp_accesses.specs.WorldViews.{world_view, ComesTo};
ghost use Rattle.interp_library.specs.Calls.Results.{result_view};

use crate::calls::character_classes::character_call;
use crate::calls::line_reads::fgets;
use crate::calls::printed_strings::printf;
use crate::memory::{memcpy, memmove, realloc};
use crate::strings::{strcat, strcmp, strcpy, strncpy};
use c_layout::{LibFn, Model};
use interp_accesses::{
    Cause, Halt, World7, calloc, free, getchar, malloc, memset, putchar, puts, strlen,
};
use interp_memory::Value7;

// `memset` of three arguments.
fn memset_call(w: &mut World7, arguments: &[Value7]) -> Result<Value7, Halt>
    ensures { ComesTo scalar_view (memory.memset (map scalar_view arguments.now) (world_view w.old)) result (world_view w.new) }
{
    match arguments {
        [to, character, size] => memset(w, *to, *character, *size),
        _ => Err(Halt::Stops(Cause::Stuck)),
    }
}

fn strcpy_call(w: &mut World7, arguments: &[Value7]) -> Result<Value7, Halt>
    ensures { ComesTo scalar_view (strings.strcpy (map scalar_view arguments.now) (world_view w.old)) result (world_view w.new) }
{
    match arguments {
        [to, from] => strcpy(w, *to, *from),
        _ => Err(Halt::Stops(Cause::Stuck)),
    }
}

fn strncpy_call(w: &mut World7, arguments: &[Value7]) -> Result<Value7, Halt>
    ensures { ComesTo scalar_view (strings.strncpy (map scalar_view arguments.now) (world_view w.old)) result (world_view w.new) }
{
    match arguments {
        [to, from, size] => strncpy(w, *to, *from, *size),
        _ => Err(Halt::Stops(Cause::Stuck)),
    }
}

fn strcat_call(w: &mut World7, arguments: &[Value7]) -> Result<Value7, Halt>
    ensures { ComesTo scalar_view (strings.strcat (map scalar_view arguments.now) (world_view w.old)) result (world_view w.new) }
{
    match arguments {
        [to, from] => strcat(w, *to, *from),
        _ => Err(Halt::Stops(Cause::Stuck)),
    }
}

fn strcmp_call(w: &mut World7, arguments: &[Value7]) -> Result<Value7, Halt>
    ensures { ComesTo scalar_view (strings.strcmp (map scalar_view arguments.now) (world_view w.old)) result (world_view w.new) }
{
    match arguments {
        [left, right] => strcmp(w, *left, *right),
        _ => Err(Halt::Stops(Cause::Stuck)),
    }
}

fn fgets_call(w: &mut World7, model: &Model, arguments: &[Value7]) -> Result<Value7, Halt>
    ensures { ComesTo scalar_view (calls.fgets model.now (map scalar_view arguments.now) (world_view w.old)) result (world_view w.new) }
{
    match arguments {
        [text, size, stream] => fgets(w, model, *text, *size, *stream),
        _ => Err(Halt::Stops(Cause::Stuck)),
    }
}

fn free_call(w: &mut World7, arguments: &[Value7]) -> Result<Option<Value7>, Halt>
    ensures { ComesTo result_view (behind (allocations.free (map scalar_view arguments.now) (world_view w.old)) (λ _ w. goes None w)) result (world_view w.new) }
{
    free(w, arguments)?;
    Ok(None)
}

/// A call of a library function: its result, where it has one. An allocation is converted at once to
/// a pointer to an object of `wanted` bytes.
pub fn library(
    w: &mut World7,
    model: &Model,
    wanted: Option<u64>,
    function: LibFn,
    arguments: &[Value7],
) -> Result<Option<Value7>, Halt>
    requires { is_model model.now ≡ true }
    ensures { ComesTo result_view (calls.library model.now wanted function (map scalar_view arguments.now) (world_view w.old)) result (world_view w.new) }
{
    match function {
        LibFn::Malloc => Ok(Some(malloc(w, model, wanted, arguments)?)),
        LibFn::Calloc => Ok(Some(calloc(w, model, wanted, arguments)?)),
        LibFn::Realloc => Ok(Some(realloc(w, model, wanted, arguments)?)),
        LibFn::Free => free_call(w, arguments),
        LibFn::Memcpy => Ok(Some(memcpy(w, arguments)?)),
        LibFn::Memmove => Ok(Some(memmove(w, arguments)?)),
        LibFn::Memset => Ok(Some(memset_call(w, arguments)?)),
        LibFn::Strlen => Ok(Some(strlen(w, arguments)?)),
        LibFn::Strcpy => Ok(Some(strcpy_call(w, arguments)?)),
        LibFn::Strncpy => Ok(Some(strncpy_call(w, arguments)?)),
        LibFn::Strcat => Ok(Some(strcat_call(w, arguments)?)),
        LibFn::Strcmp => Ok(Some(strcmp_call(w, arguments)?)),
        LibFn::Getchar => Ok(Some(getchar(w, model)?)),
        LibFn::Fgets => Ok(Some(fgets_call(w, model, arguments)?)),
        LibFn::Putchar => Ok(Some(putchar(w, arguments)?)),
        LibFn::Puts => Ok(Some(puts(w, arguments)?)),
        LibFn::Printf => Ok(Some(printf(w, model, arguments)?)),
        LibFn::Exit => Err(Halt::Stops(Cause::Ended)),
        LibFn::Abort => Err(Halt::Stops(Cause::Ended)),
        LibFn::Isalpha | LibFn::Isdigit | LibFn::Isspace | LibFn::Isupper => {
            Ok(Some(character_call(w, function, arguments)?))
        }
        LibFn::Islower | LibFn::Isalnum | LibFn::Toupper | LibFn::Tolower => {
            Ok(Some(character_call(w, function, arguments)?))
        }
    }
}
