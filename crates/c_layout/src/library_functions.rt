//! The functions of the C library that the analysis knows.
/// A library function, by its section of ISO/IEC 9899:2011.
#[derive(Clone, Copy, PartialEq, Eq, Debug)]
pub enum LibFn {
    /// `malloc` (7.22.3.4).
    Malloc,
    /// `calloc` (7.22.3.2).
    Calloc,
    /// `realloc` (7.22.3.5).
    Realloc,
    /// `free` (7.22.3.3).
    Free,
    /// `memcpy` (7.24.2.1).
    Memcpy,
    /// `memmove` (7.24.2.2).
    Memmove,
    /// `memset` (7.24.6.1).
    Memset,
    /// `strlen` (7.24.6.3).
    Strlen,
    /// `strcpy` (7.24.2.3).
    Strcpy,
    /// `strncpy` (7.24.2.4).
    Strncpy,
    /// `strcat` (7.24.3.1).
    Strcat,
    /// `strcmp` (7.24.4.2).
    Strcmp,
    /// `isalpha` (7.4.1.2).
    Isalpha,
    /// `isdigit` (7.4.1.5).
    Isdigit,
    /// `isspace` (7.4.1.10).
    Isspace,
    /// `isupper` (7.4.1.11).
    Isupper,
    /// `islower` (7.4.1.7).
    Islower,
    /// `isalnum` (7.4.1.1).
    Isalnum,
    /// `toupper` (7.4.2.2).
    Toupper,
    /// `tolower` (7.4.2.1).
    Tolower,
    /// `getchar` (7.21.7.6).
    Getchar,
    /// `fgets` (7.21.7.2).
    Fgets,
    /// `putchar` (7.21.7.8).
    Putchar,
    /// `puts` (7.21.7.9).
    Puts,
    /// `printf` (7.21.6.3).
    Printf,
    /// `exit` (7.22.4.4).
    Exit,
    /// `abort` (7.22.4.1).
    Abort,
}
