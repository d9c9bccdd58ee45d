//! The texts of the built-in headers: each entry once, however often the header is included.

pub(crate) const STDDEF_INT: &[u8] = b"#ifndef __ccheck_size_t\n\
    #define __ccheck_size_t\n\
    typedef unsigned int size_t;\n\
    #endif\n\
    #ifndef __ccheck_ptrdiff_t\n\
    #define __ccheck_ptrdiff_t\n\
    typedef int ptrdiff_t;\n\
    #endif\n\
    #ifndef __ccheck_NULL\n\
    #define __ccheck_NULL\n\
    #define NULL ((void*)0)\n\
    #endif\n";

pub(crate) const STDLIB_INT: &[u8] = b"#ifndef __ccheck_size_t\n\
    #define __ccheck_size_t\n\
    typedef unsigned int size_t;\n\
    #endif\n\
    #ifndef __ccheck_NULL\n\
    #define __ccheck_NULL\n\
    #define NULL ((void*)0)\n\
    #endif\n\
    #ifndef __ccheck_EXIT_SUCCESS\n\
    #define __ccheck_EXIT_SUCCESS\n\
    #define EXIT_SUCCESS 0\n\
    #endif\n\
    #ifndef __ccheck_EXIT_FAILURE\n\
    #define __ccheck_EXIT_FAILURE\n\
    #define EXIT_FAILURE 1\n\
    #endif\n";

pub(crate) const STRING_INT: &[u8] = b"#ifndef __ccheck_size_t\n\
    #define __ccheck_size_t\n\
    typedef unsigned int size_t;\n\
    #endif\n\
    #ifndef __ccheck_NULL\n\
    #define __ccheck_NULL\n\
    #define NULL ((void*)0)\n\
    #endif\n";

pub(crate) const STDIO_INT: &[u8] = b"#ifndef __ccheck_size_t\n\
    #define __ccheck_size_t\n\
    typedef unsigned int size_t;\n\
    #endif\n\
    #ifndef __ccheck_NULL\n\
    #define __ccheck_NULL\n\
    #define NULL ((void*)0)\n\
    #endif\n\
    #ifndef __ccheck_EOF\n\
    #define __ccheck_EOF\n\
    #define EOF (-1)\n\
    #endif\n\
    #ifndef __ccheck___file\n\
    #define __ccheck___file\n\
    struct __file { char b; };\n\
    #endif\n\
    #ifndef __ccheck_FILE\n\
    #define __ccheck_FILE\n\
    typedef struct __file FILE;\n\
    #endif\n\
    #ifndef __ccheck___stdin\n\
    #define __ccheck___stdin\n\
    static struct __file __stdin;\n\
    #endif\n\
    #ifndef __ccheck_stdin\n\
    #define __ccheck_stdin\n\
    #define stdin (&__stdin)\n\
    #endif\n";

pub(crate) const STDDEF_LONG: &[u8] = b"#ifndef __ccheck_size_t\n\
    #define __ccheck_size_t\n\
    typedef unsigned long size_t;\n\
    #endif\n\
    #ifndef __ccheck_ptrdiff_t\n\
    #define __ccheck_ptrdiff_t\n\
    typedef long ptrdiff_t;\n\
    #endif\n\
    #ifndef __ccheck_NULL\n\
    #define __ccheck_NULL\n\
    #define NULL ((void*)0)\n\
    #endif\n";

pub(crate) const STDLIB_LONG: &[u8] = b"#ifndef __ccheck_size_t\n\
    #define __ccheck_size_t\n\
    typedef unsigned long size_t;\n\
    #endif\n\
    #ifndef __ccheck_NULL\n\
    #define __ccheck_NULL\n\
    #define NULL ((void*)0)\n\
    #endif\n\
    #ifndef __ccheck_EXIT_SUCCESS\n\
    #define __ccheck_EXIT_SUCCESS\n\
    #define EXIT_SUCCESS 0\n\
    #endif\n\
    #ifndef __ccheck_EXIT_FAILURE\n\
    #define __ccheck_EXIT_FAILURE\n\
    #define EXIT_FAILURE 1\n\
    #endif\n";

pub(crate) const STRING_LONG: &[u8] = b"#ifndef __ccheck_size_t\n\
    #define __ccheck_size_t\n\
    typedef unsigned long size_t;\n\
    #endif\n\
    #ifndef __ccheck_NULL\n\
    #define __ccheck_NULL\n\
    #define NULL ((void*)0)\n\
    #endif\n";

pub(crate) const STDIO_LONG: &[u8] = b"#ifndef __ccheck_size_t\n\
    #define __ccheck_size_t\n\
    typedef unsigned long size_t;\n\
    #endif\n\
    #ifndef __ccheck_NULL\n\
    #define __ccheck_NULL\n\
    #define NULL ((void*)0)\n\
    #endif\n\
    #ifndef __ccheck_EOF\n\
    #define __ccheck_EOF\n\
    #define EOF (-1)\n\
    #endif\n\
    #ifndef __ccheck___file\n\
    #define __ccheck___file\n\
    struct __file { char b; };\n\
    #endif\n\
    #ifndef __ccheck_FILE\n\
    #define __ccheck_FILE\n\
    typedef struct __file FILE;\n\
    #endif\n\
    #ifndef __ccheck___stdin\n\
    #define __ccheck___stdin\n\
    static struct __file __stdin;\n\
    #endif\n\
    #ifndef __ccheck_stdin\n\
    #define __ccheck_stdin\n\
    #define stdin (&__stdin)\n\
    #endif\n";

pub(crate) const STDDEF_LONG_LONG: &[u8] = b"#ifndef __ccheck_size_t\n\
    #define __ccheck_size_t\n\
    typedef unsigned long long size_t;\n\
    #endif\n\
    #ifndef __ccheck_ptrdiff_t\n\
    #define __ccheck_ptrdiff_t\n\
    typedef long long ptrdiff_t;\n\
    #endif\n\
    #ifndef __ccheck_NULL\n\
    #define __ccheck_NULL\n\
    #define NULL ((void*)0)\n\
    #endif\n";

pub(crate) const STDLIB_LONG_LONG: &[u8] = b"#ifndef __ccheck_size_t\n\
    #define __ccheck_size_t\n\
    typedef unsigned long long size_t;\n\
    #endif\n\
    #ifndef __ccheck_NULL\n\
    #define __ccheck_NULL\n\
    #define NULL ((void*)0)\n\
    #endif\n\
    #ifndef __ccheck_EXIT_SUCCESS\n\
    #define __ccheck_EXIT_SUCCESS\n\
    #define EXIT_SUCCESS 0\n\
    #endif\n\
    #ifndef __ccheck_EXIT_FAILURE\n\
    #define __ccheck_EXIT_FAILURE\n\
    #define EXIT_FAILURE 1\n\
    #endif\n";

pub(crate) const STRING_LONG_LONG: &[u8] = b"#ifndef __ccheck_size_t\n\
    #define __ccheck_size_t\n\
    typedef unsigned long long size_t;\n\
    #endif\n\
    #ifndef __ccheck_NULL\n\
    #define __ccheck_NULL\n\
    #define NULL ((void*)0)\n\
    #endif\n";

pub(crate) const STDIO_LONG_LONG: &[u8] = b"#ifndef __ccheck_size_t\n\
    #define __ccheck_size_t\n\
    typedef unsigned long long size_t;\n\
    #endif\n\
    #ifndef __ccheck_NULL\n\
    #define __ccheck_NULL\n\
    #define NULL ((void*)0)\n\
    #endif\n\
    #ifndef __ccheck_EOF\n\
    #define __ccheck_EOF\n\
    #define EOF (-1)\n\
    #endif\n\
    #ifndef __ccheck___file\n\
    #define __ccheck___file\n\
    struct __file { char b; };\n\
    #endif\n\
    #ifndef __ccheck_FILE\n\
    #define __ccheck_FILE\n\
    typedef struct __file FILE;\n\
    #endif\n\
    #ifndef __ccheck___stdin\n\
    #define __ccheck___stdin\n\
    static struct __file __stdin;\n\
    #endif\n\
    #ifndef __ccheck_stdin\n\
    #define __ccheck_stdin\n\
    #define stdin (&__stdin)\n\
    #endif\n";

pub(crate) const LIMITS_2_4_UNSIGNED: &[u8] = b"#ifndef __ccheck_CHAR_BIT\n\
    #define __ccheck_CHAR_BIT\n\
    #define CHAR_BIT 8\n\
    #endif\n\
    #ifndef __ccheck_SCHAR_MIN\n\
    #define __ccheck_SCHAR_MIN\n\
    #define SCHAR_MIN (-127-1)\n\
    #endif\n\
    #ifndef __ccheck_SCHAR_MAX\n\
    #define __ccheck_SCHAR_MAX\n\
    #define SCHAR_MAX 127\n\
    #endif\n\
    #ifndef __ccheck_CHAR_MIN\n\
    #define __ccheck_CHAR_MIN\n\
    #define CHAR_MIN 0\n\
    #endif\n\
    #ifndef __ccheck_CHAR_MAX\n\
    #define __ccheck_CHAR_MAX\n\
    #define CHAR_MAX 255\n\
    #endif\n\
    #ifndef __ccheck_SHRT_MIN\n\
    #define __ccheck_SHRT_MIN\n\
    #define SHRT_MIN (-32767-1)\n\
    #endif\n\
    #ifndef __ccheck_SHRT_MAX\n\
    #define __ccheck_SHRT_MAX\n\
    #define SHRT_MAX 32767\n\
    #endif\n\
    #ifndef __ccheck_INT_MIN\n\
    #define __ccheck_INT_MIN\n\
    #define INT_MIN (-32767-1)\n\
    #endif\n\
    #ifndef __ccheck_INT_MAX\n\
    #define __ccheck_INT_MAX\n\
    #define INT_MAX 32767\n\
    #endif\n\
    #ifndef __ccheck_LONG_MIN\n\
    #define __ccheck_LONG_MIN\n\
    #define LONG_MIN (-2147483647l-1)\n\
    #endif\n\
    #ifndef __ccheck_LONG_MAX\n\
    #define __ccheck_LONG_MAX\n\
    #define LONG_MAX 2147483647l\n\
    #endif\n\
    #ifndef __ccheck_LLONG_MIN\n\
    #define __ccheck_LLONG_MIN\n\
    #define LLONG_MIN (-9223372036854775807ll-1)\n\
    #endif\n\
    #ifndef __ccheck_LLONG_MAX\n\
    #define __ccheck_LLONG_MAX\n\
    #define LLONG_MAX 9223372036854775807ll\n\
    #endif\n\
    #ifndef __ccheck_UCHAR_MAX\n\
    #define __ccheck_UCHAR_MAX\n\
    #define UCHAR_MAX 255\n\
    #endif\n\
    #ifndef __ccheck_USHRT_MAX\n\
    #define __ccheck_USHRT_MAX\n\
    #define USHRT_MAX 65535u\n\
    #endif\n\
    #ifndef __ccheck_UINT_MAX\n\
    #define __ccheck_UINT_MAX\n\
    #define UINT_MAX 65535u\n\
    #endif\n\
    #ifndef __ccheck_ULONG_MAX\n\
    #define __ccheck_ULONG_MAX\n\
    #define ULONG_MAX 4294967295ul\n\
    #endif\n\
    #ifndef __ccheck_ULLONG_MAX\n\
    #define __ccheck_ULLONG_MAX\n\
    #define ULLONG_MAX 18446744073709551615ull\n\
    #endif\n";

pub(crate) const LIMITS_2_4_SIGNED: &[u8] = b"#ifndef __ccheck_CHAR_BIT\n\
    #define __ccheck_CHAR_BIT\n\
    #define CHAR_BIT 8\n\
    #endif\n\
    #ifndef __ccheck_SCHAR_MIN\n\
    #define __ccheck_SCHAR_MIN\n\
    #define SCHAR_MIN (-127-1)\n\
    #endif\n\
    #ifndef __ccheck_SCHAR_MAX\n\
    #define __ccheck_SCHAR_MAX\n\
    #define SCHAR_MAX 127\n\
    #endif\n\
    #ifndef __ccheck_CHAR_MIN\n\
    #define __ccheck_CHAR_MIN\n\
    #define CHAR_MIN (-127-1)\n\
    #endif\n\
    #ifndef __ccheck_CHAR_MAX\n\
    #define __ccheck_CHAR_MAX\n\
    #define CHAR_MAX 127\n\
    #endif\n\
    #ifndef __ccheck_SHRT_MIN\n\
    #define __ccheck_SHRT_MIN\n\
    #define SHRT_MIN (-32767-1)\n\
    #endif\n\
    #ifndef __ccheck_SHRT_MAX\n\
    #define __ccheck_SHRT_MAX\n\
    #define SHRT_MAX 32767\n\
    #endif\n\
    #ifndef __ccheck_INT_MIN\n\
    #define __ccheck_INT_MIN\n\
    #define INT_MIN (-32767-1)\n\
    #endif\n\
    #ifndef __ccheck_INT_MAX\n\
    #define __ccheck_INT_MAX\n\
    #define INT_MAX 32767\n\
    #endif\n\
    #ifndef __ccheck_LONG_MIN\n\
    #define __ccheck_LONG_MIN\n\
    #define LONG_MIN (-2147483647l-1)\n\
    #endif\n\
    #ifndef __ccheck_LONG_MAX\n\
    #define __ccheck_LONG_MAX\n\
    #define LONG_MAX 2147483647l\n\
    #endif\n\
    #ifndef __ccheck_LLONG_MIN\n\
    #define __ccheck_LLONG_MIN\n\
    #define LLONG_MIN (-9223372036854775807ll-1)\n\
    #endif\n\
    #ifndef __ccheck_LLONG_MAX\n\
    #define __ccheck_LLONG_MAX\n\
    #define LLONG_MAX 9223372036854775807ll\n\
    #endif\n\
    #ifndef __ccheck_UCHAR_MAX\n\
    #define __ccheck_UCHAR_MAX\n\
    #define UCHAR_MAX 255\n\
    #endif\n\
    #ifndef __ccheck_USHRT_MAX\n\
    #define __ccheck_USHRT_MAX\n\
    #define USHRT_MAX 65535u\n\
    #endif\n\
    #ifndef __ccheck_UINT_MAX\n\
    #define __ccheck_UINT_MAX\n\
    #define UINT_MAX 65535u\n\
    #endif\n\
    #ifndef __ccheck_ULONG_MAX\n\
    #define __ccheck_ULONG_MAX\n\
    #define ULONG_MAX 4294967295ul\n\
    #endif\n\
    #ifndef __ccheck_ULLONG_MAX\n\
    #define __ccheck_ULLONG_MAX\n\
    #define ULLONG_MAX 18446744073709551615ull\n\
    #endif\n";

pub(crate) const LIMITS_2_8_UNSIGNED: &[u8] = b"#ifndef __ccheck_CHAR_BIT\n\
    #define __ccheck_CHAR_BIT\n\
    #define CHAR_BIT 8\n\
    #endif\n\
    #ifndef __ccheck_SCHAR_MIN\n\
    #define __ccheck_SCHAR_MIN\n\
    #define SCHAR_MIN (-127-1)\n\
    #endif\n\
    #ifndef __ccheck_SCHAR_MAX\n\
    #define __ccheck_SCHAR_MAX\n\
    #define SCHAR_MAX 127\n\
    #endif\n\
    #ifndef __ccheck_CHAR_MIN\n\
    #define __ccheck_CHAR_MIN\n\
    #define CHAR_MIN 0\n\
    #endif\n\
    #ifndef __ccheck_CHAR_MAX\n\
    #define __ccheck_CHAR_MAX\n\
    #define CHAR_MAX 255\n\
    #endif\n\
    #ifndef __ccheck_SHRT_MIN\n\
    #define __ccheck_SHRT_MIN\n\
    #define SHRT_MIN (-32767-1)\n\
    #endif\n\
    #ifndef __ccheck_SHRT_MAX\n\
    #define __ccheck_SHRT_MAX\n\
    #define SHRT_MAX 32767\n\
    #endif\n\
    #ifndef __ccheck_INT_MIN\n\
    #define __ccheck_INT_MIN\n\
    #define INT_MIN (-32767-1)\n\
    #endif\n\
    #ifndef __ccheck_INT_MAX\n\
    #define __ccheck_INT_MAX\n\
    #define INT_MAX 32767\n\
    #endif\n\
    #ifndef __ccheck_LONG_MIN\n\
    #define __ccheck_LONG_MIN\n\
    #define LONG_MIN (-9223372036854775807l-1)\n\
    #endif\n\
    #ifndef __ccheck_LONG_MAX\n\
    #define __ccheck_LONG_MAX\n\
    #define LONG_MAX 9223372036854775807l\n\
    #endif\n\
    #ifndef __ccheck_LLONG_MIN\n\
    #define __ccheck_LLONG_MIN\n\
    #define LLONG_MIN (-9223372036854775807ll-1)\n\
    #endif\n\
    #ifndef __ccheck_LLONG_MAX\n\
    #define __ccheck_LLONG_MAX\n\
    #define LLONG_MAX 9223372036854775807ll\n\
    #endif\n\
    #ifndef __ccheck_UCHAR_MAX\n\
    #define __ccheck_UCHAR_MAX\n\
    #define UCHAR_MAX 255\n\
    #endif\n\
    #ifndef __ccheck_USHRT_MAX\n\
    #define __ccheck_USHRT_MAX\n\
    #define USHRT_MAX 65535u\n\
    #endif\n\
    #ifndef __ccheck_UINT_MAX\n\
    #define __ccheck_UINT_MAX\n\
    #define UINT_MAX 65535u\n\
    #endif\n\
    #ifndef __ccheck_ULONG_MAX\n\
    #define __ccheck_ULONG_MAX\n\
    #define ULONG_MAX 18446744073709551615ul\n\
    #endif\n\
    #ifndef __ccheck_ULLONG_MAX\n\
    #define __ccheck_ULLONG_MAX\n\
    #define ULLONG_MAX 18446744073709551615ull\n\
    #endif\n";

pub(crate) const LIMITS_2_8_SIGNED: &[u8] = b"#ifndef __ccheck_CHAR_BIT\n\
    #define __ccheck_CHAR_BIT\n\
    #define CHAR_BIT 8\n\
    #endif\n\
    #ifndef __ccheck_SCHAR_MIN\n\
    #define __ccheck_SCHAR_MIN\n\
    #define SCHAR_MIN (-127-1)\n\
    #endif\n\
    #ifndef __ccheck_SCHAR_MAX\n\
    #define __ccheck_SCHAR_MAX\n\
    #define SCHAR_MAX 127\n\
    #endif\n\
    #ifndef __ccheck_CHAR_MIN\n\
    #define __ccheck_CHAR_MIN\n\
    #define CHAR_MIN (-127-1)\n\
    #endif\n\
    #ifndef __ccheck_CHAR_MAX\n\
    #define __ccheck_CHAR_MAX\n\
    #define CHAR_MAX 127\n\
    #endif\n\
    #ifndef __ccheck_SHRT_MIN\n\
    #define __ccheck_SHRT_MIN\n\
    #define SHRT_MIN (-32767-1)\n\
    #endif\n\
    #ifndef __ccheck_SHRT_MAX\n\
    #define __ccheck_SHRT_MAX\n\
    #define SHRT_MAX 32767\n\
    #endif\n\
    #ifndef __ccheck_INT_MIN\n\
    #define __ccheck_INT_MIN\n\
    #define INT_MIN (-32767-1)\n\
    #endif\n\
    #ifndef __ccheck_INT_MAX\n\
    #define __ccheck_INT_MAX\n\
    #define INT_MAX 32767\n\
    #endif\n\
    #ifndef __ccheck_LONG_MIN\n\
    #define __ccheck_LONG_MIN\n\
    #define LONG_MIN (-9223372036854775807l-1)\n\
    #endif\n\
    #ifndef __ccheck_LONG_MAX\n\
    #define __ccheck_LONG_MAX\n\
    #define LONG_MAX 9223372036854775807l\n\
    #endif\n\
    #ifndef __ccheck_LLONG_MIN\n\
    #define __ccheck_LLONG_MIN\n\
    #define LLONG_MIN (-9223372036854775807ll-1)\n\
    #endif\n\
    #ifndef __ccheck_LLONG_MAX\n\
    #define __ccheck_LLONG_MAX\n\
    #define LLONG_MAX 9223372036854775807ll\n\
    #endif\n\
    #ifndef __ccheck_UCHAR_MAX\n\
    #define __ccheck_UCHAR_MAX\n\
    #define UCHAR_MAX 255\n\
    #endif\n\
    #ifndef __ccheck_USHRT_MAX\n\
    #define __ccheck_USHRT_MAX\n\
    #define USHRT_MAX 65535u\n\
    #endif\n\
    #ifndef __ccheck_UINT_MAX\n\
    #define __ccheck_UINT_MAX\n\
    #define UINT_MAX 65535u\n\
    #endif\n\
    #ifndef __ccheck_ULONG_MAX\n\
    #define __ccheck_ULONG_MAX\n\
    #define ULONG_MAX 18446744073709551615ul\n\
    #endif\n\
    #ifndef __ccheck_ULLONG_MAX\n\
    #define __ccheck_ULLONG_MAX\n\
    #define ULLONG_MAX 18446744073709551615ull\n\
    #endif\n";

pub(crate) const LIMITS_4_4_UNSIGNED: &[u8] = b"#ifndef __ccheck_CHAR_BIT\n\
    #define __ccheck_CHAR_BIT\n\
    #define CHAR_BIT 8\n\
    #endif\n\
    #ifndef __ccheck_SCHAR_MIN\n\
    #define __ccheck_SCHAR_MIN\n\
    #define SCHAR_MIN (-127-1)\n\
    #endif\n\
    #ifndef __ccheck_SCHAR_MAX\n\
    #define __ccheck_SCHAR_MAX\n\
    #define SCHAR_MAX 127\n\
    #endif\n\
    #ifndef __ccheck_CHAR_MIN\n\
    #define __ccheck_CHAR_MIN\n\
    #define CHAR_MIN 0\n\
    #endif\n\
    #ifndef __ccheck_CHAR_MAX\n\
    #define __ccheck_CHAR_MAX\n\
    #define CHAR_MAX 255\n\
    #endif\n\
    #ifndef __ccheck_SHRT_MIN\n\
    #define __ccheck_SHRT_MIN\n\
    #define SHRT_MIN (-32767-1)\n\
    #endif\n\
    #ifndef __ccheck_SHRT_MAX\n\
    #define __ccheck_SHRT_MAX\n\
    #define SHRT_MAX 32767\n\
    #endif\n\
    #ifndef __ccheck_INT_MIN\n\
    #define __ccheck_INT_MIN\n\
    #define INT_MIN (-2147483647-1)\n\
    #endif\n\
    #ifndef __ccheck_INT_MAX\n\
    #define __ccheck_INT_MAX\n\
    #define INT_MAX 2147483647\n\
    #endif\n\
    #ifndef __ccheck_LONG_MIN\n\
    #define __ccheck_LONG_MIN\n\
    #define LONG_MIN (-2147483647l-1)\n\
    #endif\n\
    #ifndef __ccheck_LONG_MAX\n\
    #define __ccheck_LONG_MAX\n\
    #define LONG_MAX 2147483647l\n\
    #endif\n\
    #ifndef __ccheck_LLONG_MIN\n\
    #define __ccheck_LLONG_MIN\n\
    #define LLONG_MIN (-9223372036854775807ll-1)\n\
    #endif\n\
    #ifndef __ccheck_LLONG_MAX\n\
    #define __ccheck_LLONG_MAX\n\
    #define LLONG_MAX 9223372036854775807ll\n\
    #endif\n\
    #ifndef __ccheck_UCHAR_MAX\n\
    #define __ccheck_UCHAR_MAX\n\
    #define UCHAR_MAX 255\n\
    #endif\n\
    #ifndef __ccheck_USHRT_MAX\n\
    #define __ccheck_USHRT_MAX\n\
    #define USHRT_MAX 65535\n\
    #endif\n\
    #ifndef __ccheck_UINT_MAX\n\
    #define __ccheck_UINT_MAX\n\
    #define UINT_MAX 4294967295u\n\
    #endif\n\
    #ifndef __ccheck_ULONG_MAX\n\
    #define __ccheck_ULONG_MAX\n\
    #define ULONG_MAX 4294967295ul\n\
    #endif\n\
    #ifndef __ccheck_ULLONG_MAX\n\
    #define __ccheck_ULLONG_MAX\n\
    #define ULLONG_MAX 18446744073709551615ull\n\
    #endif\n";

pub(crate) const LIMITS_4_4_SIGNED: &[u8] = b"#ifndef __ccheck_CHAR_BIT\n\
    #define __ccheck_CHAR_BIT\n\
    #define CHAR_BIT 8\n\
    #endif\n\
    #ifndef __ccheck_SCHAR_MIN\n\
    #define __ccheck_SCHAR_MIN\n\
    #define SCHAR_MIN (-127-1)\n\
    #endif\n\
    #ifndef __ccheck_SCHAR_MAX\n\
    #define __ccheck_SCHAR_MAX\n\
    #define SCHAR_MAX 127\n\
    #endif\n\
    #ifndef __ccheck_CHAR_MIN\n\
    #define __ccheck_CHAR_MIN\n\
    #define CHAR_MIN (-127-1)\n\
    #endif\n\
    #ifndef __ccheck_CHAR_MAX\n\
    #define __ccheck_CHAR_MAX\n\
    #define CHAR_MAX 127\n\
    #endif\n\
    #ifndef __ccheck_SHRT_MIN\n\
    #define __ccheck_SHRT_MIN\n\
    #define SHRT_MIN (-32767-1)\n\
    #endif\n\
    #ifndef __ccheck_SHRT_MAX\n\
    #define __ccheck_SHRT_MAX\n\
    #define SHRT_MAX 32767\n\
    #endif\n\
    #ifndef __ccheck_INT_MIN\n\
    #define __ccheck_INT_MIN\n\
    #define INT_MIN (-2147483647-1)\n\
    #endif\n\
    #ifndef __ccheck_INT_MAX\n\
    #define __ccheck_INT_MAX\n\
    #define INT_MAX 2147483647\n\
    #endif\n\
    #ifndef __ccheck_LONG_MIN\n\
    #define __ccheck_LONG_MIN\n\
    #define LONG_MIN (-2147483647l-1)\n\
    #endif\n\
    #ifndef __ccheck_LONG_MAX\n\
    #define __ccheck_LONG_MAX\n\
    #define LONG_MAX 2147483647l\n\
    #endif\n\
    #ifndef __ccheck_LLONG_MIN\n\
    #define __ccheck_LLONG_MIN\n\
    #define LLONG_MIN (-9223372036854775807ll-1)\n\
    #endif\n\
    #ifndef __ccheck_LLONG_MAX\n\
    #define __ccheck_LLONG_MAX\n\
    #define LLONG_MAX 9223372036854775807ll\n\
    #endif\n\
    #ifndef __ccheck_UCHAR_MAX\n\
    #define __ccheck_UCHAR_MAX\n\
    #define UCHAR_MAX 255\n\
    #endif\n\
    #ifndef __ccheck_USHRT_MAX\n\
    #define __ccheck_USHRT_MAX\n\
    #define USHRT_MAX 65535\n\
    #endif\n\
    #ifndef __ccheck_UINT_MAX\n\
    #define __ccheck_UINT_MAX\n\
    #define UINT_MAX 4294967295u\n\
    #endif\n\
    #ifndef __ccheck_ULONG_MAX\n\
    #define __ccheck_ULONG_MAX\n\
    #define ULONG_MAX 4294967295ul\n\
    #endif\n\
    #ifndef __ccheck_ULLONG_MAX\n\
    #define __ccheck_ULLONG_MAX\n\
    #define ULLONG_MAX 18446744073709551615ull\n\
    #endif\n";

pub(crate) const LIMITS_4_8_UNSIGNED: &[u8] = b"#ifndef __ccheck_CHAR_BIT\n\
    #define __ccheck_CHAR_BIT\n\
    #define CHAR_BIT 8\n\
    #endif\n\
    #ifndef __ccheck_SCHAR_MIN\n\
    #define __ccheck_SCHAR_MIN\n\
    #define SCHAR_MIN (-127-1)\n\
    #endif\n\
    #ifndef __ccheck_SCHAR_MAX\n\
    #define __ccheck_SCHAR_MAX\n\
    #define SCHAR_MAX 127\n\
    #endif\n\
    #ifndef __ccheck_CHAR_MIN\n\
    #define __ccheck_CHAR_MIN\n\
    #define CHAR_MIN 0\n\
    #endif\n\
    #ifndef __ccheck_CHAR_MAX\n\
    #define __ccheck_CHAR_MAX\n\
    #define CHAR_MAX 255\n\
    #endif\n\
    #ifndef __ccheck_SHRT_MIN\n\
    #define __ccheck_SHRT_MIN\n\
    #define SHRT_MIN (-32767-1)\n\
    #endif\n\
    #ifndef __ccheck_SHRT_MAX\n\
    #define __ccheck_SHRT_MAX\n\
    #define SHRT_MAX 32767\n\
    #endif\n\
    #ifndef __ccheck_INT_MIN\n\
    #define __ccheck_INT_MIN\n\
    #define INT_MIN (-2147483647-1)\n\
    #endif\n\
    #ifndef __ccheck_INT_MAX\n\
    #define __ccheck_INT_MAX\n\
    #define INT_MAX 2147483647\n\
    #endif\n\
    #ifndef __ccheck_LONG_MIN\n\
    #define __ccheck_LONG_MIN\n\
    #define LONG_MIN (-9223372036854775807l-1)\n\
    #endif\n\
    #ifndef __ccheck_LONG_MAX\n\
    #define __ccheck_LONG_MAX\n\
    #define LONG_MAX 9223372036854775807l\n\
    #endif\n\
    #ifndef __ccheck_LLONG_MIN\n\
    #define __ccheck_LLONG_MIN\n\
    #define LLONG_MIN (-9223372036854775807ll-1)\n\
    #endif\n\
    #ifndef __ccheck_LLONG_MAX\n\
    #define __ccheck_LLONG_MAX\n\
    #define LLONG_MAX 9223372036854775807ll\n\
    #endif\n\
    #ifndef __ccheck_UCHAR_MAX\n\
    #define __ccheck_UCHAR_MAX\n\
    #define UCHAR_MAX 255\n\
    #endif\n\
    #ifndef __ccheck_USHRT_MAX\n\
    #define __ccheck_USHRT_MAX\n\
    #define USHRT_MAX 65535\n\
    #endif\n\
    #ifndef __ccheck_UINT_MAX\n\
    #define __ccheck_UINT_MAX\n\
    #define UINT_MAX 4294967295u\n\
    #endif\n\
    #ifndef __ccheck_ULONG_MAX\n\
    #define __ccheck_ULONG_MAX\n\
    #define ULONG_MAX 18446744073709551615ul\n\
    #endif\n\
    #ifndef __ccheck_ULLONG_MAX\n\
    #define __ccheck_ULLONG_MAX\n\
    #define ULLONG_MAX 18446744073709551615ull\n\
    #endif\n";

pub(crate) const LIMITS_4_8_SIGNED: &[u8] = b"#ifndef __ccheck_CHAR_BIT\n\
    #define __ccheck_CHAR_BIT\n\
    #define CHAR_BIT 8\n\
    #endif\n\
    #ifndef __ccheck_SCHAR_MIN\n\
    #define __ccheck_SCHAR_MIN\n\
    #define SCHAR_MIN (-127-1)\n\
    #endif\n\
    #ifndef __ccheck_SCHAR_MAX\n\
    #define __ccheck_SCHAR_MAX\n\
    #define SCHAR_MAX 127\n\
    #endif\n\
    #ifndef __ccheck_CHAR_MIN\n\
    #define __ccheck_CHAR_MIN\n\
    #define CHAR_MIN (-127-1)\n\
    #endif\n\
    #ifndef __ccheck_CHAR_MAX\n\
    #define __ccheck_CHAR_MAX\n\
    #define CHAR_MAX 127\n\
    #endif\n\
    #ifndef __ccheck_SHRT_MIN\n\
    #define __ccheck_SHRT_MIN\n\
    #define SHRT_MIN (-32767-1)\n\
    #endif\n\
    #ifndef __ccheck_SHRT_MAX\n\
    #define __ccheck_SHRT_MAX\n\
    #define SHRT_MAX 32767\n\
    #endif\n\
    #ifndef __ccheck_INT_MIN\n\
    #define __ccheck_INT_MIN\n\
    #define INT_MIN (-2147483647-1)\n\
    #endif\n\
    #ifndef __ccheck_INT_MAX\n\
    #define __ccheck_INT_MAX\n\
    #define INT_MAX 2147483647\n\
    #endif\n\
    #ifndef __ccheck_LONG_MIN\n\
    #define __ccheck_LONG_MIN\n\
    #define LONG_MIN (-9223372036854775807l-1)\n\
    #endif\n\
    #ifndef __ccheck_LONG_MAX\n\
    #define __ccheck_LONG_MAX\n\
    #define LONG_MAX 9223372036854775807l\n\
    #endif\n\
    #ifndef __ccheck_LLONG_MIN\n\
    #define __ccheck_LLONG_MIN\n\
    #define LLONG_MIN (-9223372036854775807ll-1)\n\
    #endif\n\
    #ifndef __ccheck_LLONG_MAX\n\
    #define __ccheck_LLONG_MAX\n\
    #define LLONG_MAX 9223372036854775807ll\n\
    #endif\n\
    #ifndef __ccheck_UCHAR_MAX\n\
    #define __ccheck_UCHAR_MAX\n\
    #define UCHAR_MAX 255\n\
    #endif\n\
    #ifndef __ccheck_USHRT_MAX\n\
    #define __ccheck_USHRT_MAX\n\
    #define USHRT_MAX 65535\n\
    #endif\n\
    #ifndef __ccheck_UINT_MAX\n\
    #define __ccheck_UINT_MAX\n\
    #define UINT_MAX 4294967295u\n\
    #endif\n\
    #ifndef __ccheck_ULONG_MAX\n\
    #define __ccheck_ULONG_MAX\n\
    #define ULONG_MAX 18446744073709551615ul\n\
    #endif\n\
    #ifndef __ccheck_ULLONG_MAX\n\
    #define __ccheck_ULLONG_MAX\n\
    #define ULLONG_MAX 18446744073709551615ull\n\
    #endif\n";
