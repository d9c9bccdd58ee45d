//! The examples of clause 6 of the standard (6.5 to 6.9), as far as their forms are in the language, with
//! the trees that the standard gives them; and examples whose forms are not in, which are refused.
use crate::grammar::blank_tokens::{accept_all, answer_all};
use crate::grammar::outlines::{group_declarators, group_initializers, group_statements};
use std::test::Fail;

/// Expressions, with the parentheses that the standard's text puts into them.
const EXPRESSIONS: [(&str, &str); 22] = [
    // 5.1.2.3: a = (((a + 32760) + b) + 5)
    (
        "int x = a = a + 32760 + b + 5 ;",
        "(= 4 (+ (+ (+ 6 8) 10) 12))",
    ),
    // 5.1.2.3: sum = (((sum * 10) - '0') + ((*(p++)) = (getchar())))
    (
        "int x = sum = sum * 10 - '0' + ( * p ++ = getchar ( ) ) ;",
        "(= 4 (+ (- (* 6 8) 10) (() (= (un (post 14)) (call)))))",
    ),
    // 6.5.2.3
    ("int x = f ( ) . x ;", "(. (call))"),
    // 6.5.3.2: & and * applied in turn
    ("int x = & * E ;", "(un (un 6))"),
    // 6.5.3.4
    ("int x = alloc ( sizeof * dp ) ;", "(call (sizeof (un 8)))"),
    // 6.5.3.4
    (
        "int x = sizeof array / sizeof array [ 0 ] ;",
        "(/ (sizeof 5) (sizeof ([] 8 10)))",
    ),
    // 6.5.6
    ("int x = ( * p ) [ 2 ] = 99 ;", "(= ([] (() (un 6)) 9) 12)"),
    ("int x = n = p - a ;", "(= 4 (- 6 8))"),
    // 6.5.8, note 107: a < b < c means (a < b) < c
    ("int x = a < b < c ;", "(< (< 4 6) 8)"),
    // 6.5.9, note 109
    ("int x = a < b == c < d ;", "(== (< 4 6) (< 8 10))"),
    // 6.5.16.1
    ("int x = l = ( c = i ) ;", "(= 4 (() (= 7 9)))"),
    // 6.5.16.1
    (
        "int x = ( c = f ( ) ) == - 1 ;",
        "(== (() (= 5 (call))) (un 13))",
    ),
    // 6.5.16.1
    ("int x = * cpp = & c ;", "(= (un 5) (un 8))"),
    // 6.5.17
    (
        "int x = f ( a , ( t = 3 , t + 2 ) , c ) ;",
        "(call 6 (() (, (= 9 11) (+ 13 15))) 18)",
    ),
    // 6.7.2.2
    ("int x = * cp != burgundy ;", "(!= (un 5) 7)"),
    // 6.7.2.3
    ("int x = s . right -> count ;", "(-> (. 4))"),
    ("int x = sp -> left ;", "(-> 4)"),
    // 6.7.3.1
    (
        "int x = * p ++ = * q ++ ;",
        "(= (un (post 5)) (un (post 9)))",
    ),
    (
        "int x = p [ i ] = q [ i ] + r [ i ] ;",
        "(= ([] 4 6) (+ ([] 9 11) ([] 14 16)))",
    ),
    // 6.8.3
    ("int x = ( void ) p ( 0 ) ;", "(cast (call 9))"),
    ("int x = * s ++ != '\\0' ;", "(!= (un (post 5)) 8)"),
    // 6.9.1
    ("int x = a > b ? a : b ;", "(? (> 4 6) 8 10)"),
];

#[test]
fn expressions(rt: HostRuntime) -> Result<(), Fail> {
    group_initializers(&rt, rt.alloc(), &EXPRESSIONS)
}

/// Declarators.
const DECLARATORS: [(&str, &str); 9] = [
    // 6.7.6.1
    ("const int * ptr_to_constant ;", "*1 []0 / 4"),
    ("int * const constant_ptr ;", "*1 []0 / 4"),
    // 6.7.6.2: an array of pointers
    ("int fa [ 11 ] ;", "*0 []1 / 2"),
    ("int * afp [ 17 ] ;", "*1 []1 / 3"),
    // 6.7.6.2
    ("extern int * x ;", "*1 []0 / 4"),
    ("extern int y [ ] ;", "*0 []1 / 3"),
    // 6.7.6.2
    ("int a [ n ] [ 6 ] [ m ] ;", "*0 []3 / 2"),
    ("int ( * p ) [ 4 ] [ n + 1 ] ;", "*0 []2 / *1 []0 / 4"),
    // 6.5.6: a pointer to an array
    ("int ( * p ) [ m ] ;", "*0 []1 / *1 []0 / 4"),
];

#[test]
fn declarators(rt: HostRuntime) -> Result<(), Fail> {
    group_declarators(&rt, rt.alloc(), &DECLARATORS)
}

/// Declarations that have a derivation.
const DECLARATIONS: [&str; 23] = [
    // 6.7.2.2
    "enum hue { chartreuse , burgundy , claret = 20 , winedark } ; enum hue col , * cp ;",
    // 6.7.2.3
    "struct tnode { int count ; struct tnode * left , * right ; } ; struct tnode s , * sp ;",
    "typedef struct tnode TNODE ; struct tnode { int count ; TNODE * left , * right ; } ; TNODE s , * sp ;",
    // 6.7.2.3
    "struct s1 { struct s2 * s2p ; } ; struct s2 { struct s1 * s1p ; } ;",
    "struct s2 ;",
    // 6.7.3
    "const struct s { int mem ; } cs = { 1 } ; struct s ncs ; typedef int A [ 2 ] [ 3 ] ; const A a = { { 4 , 5 , 6 } , { 7 , 8 , 9 } } ;",
    // 6.7.3.1
    "int * restrict a ; int * restrict b ; extern int c [ ] ;",
    // 6.7.6.1
    "typedef int * int_ptr ; const int_ptr constant_ptr ;",
    // 6.7.6.3, as far as its forms are in
    "int f ( void ) , * fip ( ) ;",
    // 6.7.8
    "typedef int MILES , KLICKSP ( ) ; typedef struct { int hi , lo ; } range ; MILES distance ; extern KLICKSP * metricp ; range x ; range z , * zp ;",
    // 6.7.8
    "typedef struct s1 { int x ; } t1 , * tp1 ; typedef struct s2 { int x ; } t2 , * tp2 ;",
    // 6.7.9
    "int x [ ] = { 1 , 3 , 5 } ;",
    "int y [ 4 ] [ 3 ] = { { 1 , 3 , 5 } , { 2 , 4 , 6 } , { 3 , 5 , 7 } , } ;",
    "int y [ 4 ] [ 3 ] = { 1 , 3 , 5 , 2 , 4 , 6 , 3 , 5 , 7 } ;",
    "int z [ 4 ] [ 3 ] = { { 1 } , { 2 } , { 3 } , { 4 } } ;",
    "struct { int a [ 3 ] , b ; } w [ ] = { { 1 } , 2 } ;",
    "short q [ 4 ] [ 3 ] [ 2 ] = { { 1 } , { 2 , 3 } , { 4 , 5 , 6 } } ;",
    "typedef int A [ ] ; A a = { 1 , 2 } , b = { 3 , 4 , 5 } ;",
    "char s [ ] = \"abc\" , t [ 3 ] = \"abc\" ;",
    "char s [ ] = { 'a' , 'b' , 'c' , '\\0' } , t [ ] = { 'a' , 'b' , 'c' } ; char * p = \"abc\" ;",
    // 6.9.1
    "extern int max ( int a , int b ) { return a > b ? a : b ; }",
    // 6.9.2
    "int i1 = 1 ; static int i2 = 2 ; extern int i3 = 3 ; int i4 ; static int i5 ;",
    "int i [ ] ;",
];

#[test]
fn declarations(rt: HostRuntime) -> Result<(), Fail> {
    accept_all(&rt, rt.alloc(), &DECLARATIONS)
}

/// Statements.
const STATEMENTS: [(&str, &str); 7] = [
    // 6.7.3.1
    (
        "void f ( int n , int * restrict p , int * restrict q ) { while ( n -- > 0 ) * p ++ = * q ++ ; }",
        "(while (e))",
    ),
    // 6.8.3
    (
        "void f ( void ) { while ( loop1 ) { while ( loop2 ) { if ( want_out ) goto end_loop1 ; } end_loop1 : ; } }",
        "(while ({}))",
    ),
    // 6.8.3
    (
        "void f ( char * s ) { while ( * s ++ != '\\0' ) ; }",
        "(while (;))",
    ),
    // 6.8.4.1: an else goes with the nearest if that may have it
    (
        "void f ( int a , int b ) { if ( a ) if ( b ) f ( 1 , 2 ) ; else f ( 3 , 4 ) ; }",
        "(if (if (e) (e)))",
    ),
    // 6.8.4.2
    (
        "void f ( int expr ) { switch ( expr ) { int i = 4 ; f ( i ) ; case 0 : i = 17 ; default : printf ( \"%d\\n\" , i ) ; } }",
        "(switch ({}))",
    ),
    // 6.8.6.1
    (
        "void f ( void ) { for ( ; ; ) { if ( again ) { first_time : ; continue ; } } }",
        "(for ({}))",
    ),
    // 6.8.6.2
    (
        "void f ( void ) { do { continue ; contin : ; } while ( 1 ) ; }",
        "(do ({}))",
    ),
];

#[test]
fn statements(rt: HostRuntime) -> Result<(), Fail> {
    group_statements(&rt, rt.alloc(), &STATEMENTS)
}

/// Examples whose forms are not in.
const LEFT_OUT: [(&str, &str); 18] = [
    // 6.5.2.2: a call through a pointer
    (
        "int x = ( * pf [ f1 ( ) ] ) ( f2 ( ) , f3 ( ) + f4 ( ) ) ;",
        "Syntax 1",
    ),
    // 6.5.2.5: a compound literal
    ("int * p = ( int [ ] ) { 2 , 4 } ;", "Syntax 1"),
    // 6.5.15, 6.5.16: a conditional is no unary expression
    ("int x = a ? b : c = d ;", "Syntax 1"),
    // 6.7.2.1: a bit field
    ("struct tag { unsigned t : 4 ; } ;", "Syntax 1"),
    // 6.7.3
    (
        "extern const volatile int real_time_clock ;",
        "Unsupported 3",
    ),
    // 6.7.6.3: pointers to functions, and functions of them
    ("int f ( void ) , * fip ( ) , ( * pfi ) ( ) ;", "Syntax 1"),
    ("int ( * apfi [ 3 ] ) ( int * x , int * y ) ;", "Syntax 1"),
    (
        "int ( * fpfi ( int ( * ) ( long ) , int ) ) ( int , ... ) ;",
        "Unsupported 20",
    ),
    // 6.7.6.3: a static array of a parameter
    ("void f ( int a [ restrict static 3 ] [ 5 ] ) ;", "Syntax 1"),
    // 6.7.8
    ("typedef void fv ( int ) , ( * pfv ) ( int ) ;", "Syntax 1"),
    // 6.7.9: a floating constant
    ("int i = 3.5 ;", "NumberForm 4"),
    // 6.7.9: a designator
    ("int a [ 2 ] = { [ 1 ] = 2 } ;", "Syntax 1"),
    // 6.7.8: a second typedef of one name, and one in a block
    ("typedef int T ; typedef int T ;", "Syntax 5"),
    ("void f ( void ) { typedef signed int t ; }", "Syntax 1"),
    // 6.9.1: a list of identifiers
    (
        "extern int max ( a , b ) int a , b ; { return a > b ? a : b ; }",
        "Syntax 1",
    ),
    // 6.9.1
    (
        "void g ( int ( * funcp ) ( void ) ) { ( * funcp ) ( ) ; }",
        "Syntax 1",
    ),
    // 6.7.10
    ("_Static_assert ( 1 , \"x\" ) ;", "Unsupported 1"),
    // 6.8.1: a label stands before a statement
    ("void f ( void ) { l : }", "Syntax 1"),
];

#[test]
fn left_out(rt: HostRuntime) -> Result<(), Fail> {
    answer_all(&rt, rt.alloc(), &LEFT_OUT)
}
