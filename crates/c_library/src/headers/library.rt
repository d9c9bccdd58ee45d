//! The names of the library functions.
ghost use Rattle.std.specs.Prelude.{◌≡◌, bytes_eq};
ghost use Rattle.c_layout.specs.LibrarySignatures.{signature_of};
ghost use Rattle.c_library.specs.Headers.Library.{function_named};

use c_layout::LibFn;

/// All library functions.
const FUNCTIONS: [LibFn; 27] = [
    LibFn::Malloc,
    LibFn::Calloc,
    LibFn::Realloc,
    LibFn::Free,
    LibFn::Memcpy,
    LibFn::Memmove,
    LibFn::Memset,
    LibFn::Strlen,
    LibFn::Strcpy,
    LibFn::Strncpy,
    LibFn::Strcat,
    LibFn::Strcmp,
    LibFn::Isalpha,
    LibFn::Isdigit,
    LibFn::Isspace,
    LibFn::Isupper,
    LibFn::Islower,
    LibFn::Isalnum,
    LibFn::Toupper,
    LibFn::Tolower,
    LibFn::Getchar,
    LibFn::Fgets,
    LibFn::Putchar,
    LibFn::Puts,
    LibFn::Printf,
    LibFn::Exit,
    LibFn::Abort,
];

fn has_name(function: LibFn, name: &str) -> bool
    ensures { result ≡ bytes_eq name.now (signature_of function).name }
{
    name == function.signature().name
}

/// The library function that has a name; None exactly where there is none.
pub fn signature(name: &str) -> Option<LibFn>
    ensures { result ≡ function_named name.now }
{
    FUNCTIONS
        .iter()
        .copied()
        .find(|function| has_name(*function, name))
}
