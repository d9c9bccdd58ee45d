//! The plan of each library function.
ghost use Rattle.std.specs.Prelude.{◌≡◌};
ghost use Rattle.transfer_library.specs.Planning.{plan_call, plan_test};
ghost use Rattle.transfer_library_plans.specs.Calls.{call_view};
ghost use Rattle.transfer_library.specs.StringCalls.{plan_fgets};

use crate::memory_calls::{plan_copy, plan_fill};
use crate::string_calls::{plan_fgets, plan_strcat, plan_strcpy, plan_strncpy};
use c_layout::LibFn;
use cc_base::IntDomain;
use transfer_library_plans::{
    Call, Effect, Plan, argument_value, harmless, plan_calloc, plan_character, plan_free,
    plan_getchar, plan_malloc, plan_printf, plan_putchar, plan_puts, plan_realloc, plan_strcmp,
    plan_strlen,
};
use value_domain::values::Cell;

/// The plan of a call that tests or maps a character.
fn plan_test<I: IntDomain>(function: LibFn, call: Call, row: &[Cell<I>]) -> Plan<I>
    ensures { result ≡ plan_test I.lattice I.numbers function (call_view call.entry) row.now }
{
    plan_character(function, argument_value(call, row, 0))
}

/// What a call may violate in a row, and what it does. `fgets` is no call of this kind: it ends its
/// block.
#[tactic(auto, unfolding(crate::specs::Planning::plan_call))]
pub fn plan_call<I: IntDomain>(function: LibFn, call: Call, row: &[Cell<I>]) -> Plan<I>
    ensures { result ≡ plan_call I.lattice I.numbers function (call_view call.entry) row.now }
{
    match function {
        LibFn::Malloc => plan_malloc(call, row),
        LibFn::Calloc => plan_calloc(call, row),
        LibFn::Realloc => plan_realloc(call, row),
        LibFn::Free => plan_free(call, row),
        LibFn::Memcpy => plan_copy(call, row),
        LibFn::Memmove => plan_copy(call, row),
        LibFn::Memset => plan_fill(call, row),
        LibFn::Strlen => plan_strlen(call, row),
        LibFn::Strcpy => plan_strcpy(call, row),
        LibFn::Strncpy => plan_strncpy(call, row),
        LibFn::Strcat => plan_strcat(call, row),
        LibFn::Strcmp => plan_strcmp(call, row),
        LibFn::Isalpha => plan_test(LibFn::Isalpha, call, row),
        LibFn::Isdigit => plan_test(LibFn::Isdigit, call, row),
        LibFn::Isspace => plan_test(LibFn::Isspace, call, row),
        LibFn::Isupper => plan_test(LibFn::Isupper, call, row),
        LibFn::Islower => plan_test(LibFn::Islower, call, row),
        LibFn::Isalnum => plan_test(LibFn::Isalnum, call, row),
        LibFn::Toupper => plan_test(LibFn::Toupper, call, row),
        LibFn::Tolower => plan_test(LibFn::Tolower, call, row),
        LibFn::Getchar => plan_getchar(&call.flow.model),
        LibFn::Putchar => plan_putchar(&call.flow.model, argument_value(call, row, 0)),
        LibFn::Puts => plan_puts(call, row),
        LibFn::Printf => plan_printf(call, row),
        LibFn::Fgets => harmless(Effect::Unreached),
        LibFn::Exit => harmless(Effect::Unreached),
        LibFn::Abort => harmless(Effect::Unreached),
    }
}

/// What a call of `fgets` may violate, and the line that it writes on success.
pub fn plan_line<I: IntDomain>(call: Call, row: &[Cell<I>]) -> Plan<I>
    ensures { result ≡ plan_fgets I.lattice I.numbers (call_view call.entry) row.now }
{
    plan_fgets(call, row)
}
