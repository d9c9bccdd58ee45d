//! The table of the library functions: their names and prototypes, and what is special to some.
ghost use Rattle.std.specs.Prelude.{◌≡◌};
ghost use Rattle.c_layout.specs.LibrarySignatures.{signature_view, plain, allocation, third_size, character, signature_of, gives};

use crate::library_functions::LibFn;

/// A type in a library function's prototype, with qualifiers dropped.
#[derive(Clone, Copy, PartialEq, Eq, Debug)]
pub enum Slot {
    Void,
    Int,
    Size,
    /// `char *`
    Text,
    /// `void *`
    Memory,
    /// `FILE *`
    Stream,
}

/// What a function on characters tests or makes (7.4 of ISO/IEC 9899:2011).
#[derive(Clone, Copy, PartialEq, Eq, Debug)]
pub enum CharacterClass {
    Letter,
    Digit,
    Space,
    Upper,
    Lower,
    LetterOrDigit,
    ToUpper,
    ToLower,
}

/// Which arguments are numbers of bytes.
#[derive(Clone, Copy, PartialEq, Eq, Debug)]
pub enum SizeArguments {
    None,
    All,
    Third,
}

/// What is known of a library function without its effect.
#[derive(Clone, Copy)]
pub struct LibrarySignature {
    pub name: &'static str,
    pub result: Slot,
    /// Of `printf` none, since its format says what follows.
    pub parameters: &'static [Slot],
    pub takes_format: bool,
    pub allocates: bool,
    pub sizes: SizeArguments,
    pub reads_line: bool,
    pub character: Option<CharacterClass>,
}

fn plain(name: &'static str, value: Slot, parameters: &'static [Slot]) -> LibrarySignature
    ensures { signature_view result ≡ plain name.now value parameters.now }
{
    LibrarySignature {
        name,
        result: value,
        parameters,
        takes_format: false,
        allocates: false,
        sizes: SizeArguments::None,
        reads_line: false,
        character: None,
    }
}

fn allocation(name: &'static str, parameters: &'static [Slot]) -> LibrarySignature
    ensures { signature_view result ≡ allocation name.now parameters.now }
{
    LibrarySignature {
        allocates: true,
        sizes: SizeArguments::All,
        ..plain(name, Slot::Memory, parameters)
    }
}

fn third_size(name: &'static str, value: Slot, parameters: &'static [Slot]) -> LibrarySignature
    ensures { signature_view result ≡ third_size name.now value parameters.now }
{
    LibrarySignature {
        sizes: SizeArguments::Third,
        ..plain(name, value, parameters)
    }
}

fn character(name: &'static str, class: CharacterClass) -> LibrarySignature
    ensures { signature_view result ≡ character name.now class }
{
    LibrarySignature {
        character: Some(class),
        ..plain(name, Slot::Int, &[Slot::Int])
    }
}

impl LibFn {
    /// The row of the table.
    pub fn signature(self) -> LibrarySignature
        ensures { signature_view result ≡ signature_of self }
    {
        match self {
            LibFn::Malloc => allocation("malloc", &[Slot::Size]),
            LibFn::Calloc => allocation("calloc", &[Slot::Size, Slot::Size]),
            LibFn::Realloc => allocation("realloc", &[Slot::Memory, Slot::Size]),
            LibFn::Free => plain("free", Slot::Void, &[Slot::Memory]),
            LibFn::Memcpy => third_size(
                "memcpy",
                Slot::Memory,
                &[Slot::Memory, Slot::Memory, Slot::Size],
            ),
            LibFn::Memmove => third_size(
                "memmove",
                Slot::Memory,
                &[Slot::Memory, Slot::Memory, Slot::Size],
            ),
            LibFn::Memset => third_size(
                "memset",
                Slot::Memory,
                &[Slot::Memory, Slot::Int, Slot::Size],
            ),
            LibFn::Strlen => plain("strlen", Slot::Size, &[Slot::Text]),
            LibFn::Strcpy => plain("strcpy", Slot::Text, &[Slot::Text, Slot::Text]),
            LibFn::Strncpy => third_size(
                "strncpy",
                Slot::Text,
                &[Slot::Text, Slot::Text, Slot::Size],
            ),
            LibFn::Strcat => plain("strcat", Slot::Text, &[Slot::Text, Slot::Text]),
            LibFn::Strcmp => plain("strcmp", Slot::Int, &[Slot::Text, Slot::Text]),
            LibFn::Isalpha => character("isalpha", CharacterClass::Letter),
            LibFn::Isdigit => character("isdigit", CharacterClass::Digit),
            LibFn::Isspace => character("isspace", CharacterClass::Space),
            LibFn::Isupper => character("isupper", CharacterClass::Upper),
            LibFn::Islower => character("islower", CharacterClass::Lower),
            LibFn::Isalnum => character("isalnum", CharacterClass::LetterOrDigit),
            LibFn::Toupper => character("toupper", CharacterClass::ToUpper),
            LibFn::Tolower => character("tolower", CharacterClass::ToLower),
            LibFn::Getchar => plain("getchar", Slot::Int, &[]),
            LibFn::Fgets => LibrarySignature {
                reads_line: true,
                ..plain("fgets", Slot::Text, &[Slot::Text, Slot::Int, Slot::Stream])
            },
            LibFn::Putchar => plain("putchar", Slot::Int, &[Slot::Int]),
            LibFn::Puts => plain("puts", Slot::Int, &[Slot::Text]),
            LibFn::Printf => LibrarySignature {
                takes_format: true,
                ..plain("printf", Slot::Int, &[])
            },
            LibFn::Exit => plain("exit", Slot::Void, &[Slot::Int]),
            LibFn::Abort => plain("abort", Slot::Void, &[]),
        }
    }

    /// Whether a call has a value.
    pub fn gives(self) -> bool
        ensures { result ≡ gives self }
    {
        match self.signature().result {
            Slot::Void => false,
            Slot::Int | Slot::Size | Slot::Text | Slot::Memory | Slot::Stream => true,
        }
    }
}
