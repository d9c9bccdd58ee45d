//! Which units parse, and where the others are refused.
use crate::grammar::blank_tokens::{answer_all, expect};
use std::alloc::Global;
use std::test::Fail;

const DECLARATIONS: [(&str, &str); 24] = [
    ("int x ;", "ok"),
    ("long unsigned const int long x ;", "ok"),
    ("int char x ;", "Syntax 1"),
    ("const x ;", "Syntax 1"),
    ("static extern int x ;", "Syntax 1"),
    ("int * const * p , a [ 3 ] [ 4 ] , ( * q ) [ 3 ] ;", "ok"),
    (
        "struct s { int a , * b ; struct { char c ; } d ; } x ;",
        "ok",
    ),
    ("struct s { int a ; struct { int b ; } ; } ;", "Syntax 1"),
    ("struct s { } ;", "Syntax 1"),
    ("struct s { int a : 3 ; } ;", "Syntax 1"),
    ("struct ;", "Syntax 1"),
    ("enum e { A , B = 2 , } ; enum e f ( enum e x ) ;", "ok"),
    ("enum { } ;", "Syntax 1"),
    ("int a [ 2 ] [ 2 ] = { { 1 , 2 } , { 3 } , } ;", "ok"),
    ("int a [ 2 ] = { } ;", "Syntax 1"),
    ("int a [ 2 ] = { [ 0 ] = 1 } ;", "Syntax 1"),
    ("char * s = \"a\" \"b\" ;", "ok"),
    (
        "int f ( void ) , g ( ) , * h ( int , char * [ ] , int ( * ) [ 3 ] , int x ) ;",
        "ok",
    ),
    ("int f ( void , int ) ;", "ok"),
    ("int f ( int , ) ;", "Syntax 1"),
    ("int f ( int ( ) ) ;", "Syntax 1"),
    ("int ( * f ) ( void ) ;", "Syntax 1"),
    ("int f ( void ) = 1 ;", "Syntax 1"),
    ("int f ( a ) int a ; { return a ; }", "Syntax 1"),
];

#[test]
fn declarations(rt: HostRuntime) -> Result<(), Fail> {
    answer_all(&rt, rt.alloc(), &DECLARATIONS)
}

const STATEMENTS: [(&str, &str); 15] = [
    ("void f ( void ) { }", "ok"),
    ("void f ( void ) { ; { } l : goto l ; }", "ok"),
    ("void f ( void ) { l : }", "Syntax 1"),
    ("void f ( void ) { l : int x ; }", "Syntax 1"),
    (
        "void f ( int x ) { switch ( x ) { case 1 : default : break ; } }",
        "ok",
    ),
    (
        "void f ( int x ) { do x ++ ; while ( x < 9 ) ; while ( x ) continue ; }",
        "ok",
    ),
    (
        "void f ( void ) { for ( int i = 0 , j ; i < 9 ; i ++ ) ; for ( ; ; ) ; }",
        "ok",
    ),
    (
        "void f ( void ) { int x = 1 , * y [ 2 ] = { 0 } ; const int ; return ; }",
        "ok",
    ),
    ("void f ( void ) { typedef int T ; }", "Syntax 1"),
    ("void f ( void ) { extern int x ; }", "Syntax 1"),
    ("void f ( void ) { struct s { int a ; } x ; }", "Syntax 1"),
    ("void f ( void ) { int g ( void ) ; }", "Syntax 1"),
    ("void f ( int x ) { if ( x ) else ; }", "Syntax 1"),
    ("void f ( int x ) { else ; }", "Syntax 1"),
    ("int f ( void ) { return 0 }", "Syntax 1"),
];

#[test]
fn statements(rt: HostRuntime) -> Result<(), Fail> {
    answer_all(&rt, rt.alloc(), &STATEMENTS)
}

const EXPRESSIONS: [(&str, &str); 10] = [
    (
        "int x = sizeof ( int ( * ) [ 3 ] ) + sizeof x + ( long ) - 1 ;",
        "ok",
    ),
    ("int x = ( int ) { 1 } ;", "Syntax 1"),
    ("int x = f ( 1 , g ( ) ) ;", "ok"),
    ("int x = ( f ) ( ) ;", "Syntax 1"),
    ("int x = f ( ) ( ) ;", "Syntax 1"),
    ("int x = a [ 1 ] . b -> c ++ ;", "ok"),
    ("int x = y + 1 = 1 ;", "Syntax 1"),
    ("int x = * y = 1 ;", "ok"),
    ("int x = 1 , 2 ;", "Syntax 1"),
    ("int x = a ? b , c : d ;", "ok"),
];

#[test]
fn expressions(rt: HostRuntime) -> Result<(), Fail> {
    answer_all(&rt, rt.alloc(), &EXPRESSIONS)
}

const TYPEDEF_NAMES: [(&str, &str); 7] = [
    (
        "typedef int T , U [ sizeof ( T ) ] ; T f ( U ) { T x ; return ( T ) x ; }",
        "ok",
    ),
    ("typedef int T ; typedef int T ;", "Syntax 5"),
    ("typedef int T ; struct T { int a ; } ;", "Syntax 5"),
    ("typedef int T ; int f ( void ) { T : ; }", "Syntax 5"),
    ("typedef int T ; int f ( int T ) ;", "Syntax 5"),
    (
        "struct s { int T ; } ; typedef int T ; int x = y . T ;",
        "Syntax 13",
    ),
    ("int f ( typedef int T ) ; int T ;", "ok"),
];

#[test]
fn typedef_names(rt: HostRuntime) -> Result<(), Fail> {
    answer_all(&rt, rt.alloc(), &TYPEDEF_NAMES)
}

const PIECES: [(&str, &str); 10] = [
    ("int f ( void ) { return 0 ; } int x ;", "ok"),
    ("int f ( void ) { return 0 ; } ;", "Syntax 11"),
    ("int x ; int ; ;", "Syntax 6"),
    ("struct s { int a ; } x ; int y", "Syntax 10"),
    ("} int x ; int y ;", "Syntax 1"),
    ("int x ; } int y ;", "Syntax 4"),
    ("int f ( void ) { return 0 ;", "Syntax 1"),
    ("float x ; int y = 09 ;", "NumberForm 7"),
    ("int f ( void ) { return 0 } double x ;", "Unsupported 10"),
    ("int f ( int x , ... ) ;", "Unsupported 7"),
];

#[test]
fn pieces(rt: HostRuntime) -> Result<(), Fail> {
    answer_all(&rt, rt.alloc(), &PIECES)
}

/// A unit in which `part` stands so often between two texts.
fn repeated(
    alloc: Global,
    before: &str,
    part: &str,
    times: usize,
    behind: &str,
) -> Result<String, Fail> {
    let mut text = String::from_str(alloc, before)?;
    for _turn in 0..times {
        text.push_str(part)?;
    }
    text.push_str(behind)?;
    Ok(text)
}

/// What stands before, so many of a part, what stands behind, and how the unit is answered.
const HEIGHTS: [(&str, &str, usize, &str, &str); 16] = [
    ("int f ( void ) { return 1", " + 1", 253, " ; }", "ok"),
    ("int f ( void ) { return 1", " + 1", 254, " ; }", "Syntax 1"),
    (
        "int f ( void ) { return 1",
        " + 1",
        9999,
        " ; }",
        "Syntax 1",
    ),
    ("int x = 1", " + 1", 254, " ;", "ok"),
    ("int x = 1", " + 1", 255, " ;", "Syntax 1"),
    (
        "int f ( void ) { if ( 1 ) 1 ;",
        " else if ( 1 ) 1 ;",
        252,
        " }",
        "ok",
    ),
    (
        "int f ( void ) { if ( 1 ) 1 ;",
        " else if ( 1 ) 1 ;",
        253,
        " }",
        "Syntax 1",
    ),
    (
        "int f ( int x ) { if ( 1 ) { x = 1 ; }",
        " else if ( 1 ) { x = 1 ; }",
        250,
        " }",
        "ok",
    ),
    (
        "int f ( int x ) { if ( 1 ) { x = 1 ; }",
        " else if ( 1 ) { x = 1 ; }",
        251,
        " }",
        "Syntax 1",
    ),
    ("int a", " [ 1 ]", 255, " ;", "ok"),
    ("int a", " [ 1 ]", 256, " ;", "Syntax 1"),
    ("int a", " [ 1 ]", 255, " = 1 ;", "Syntax 1"),
    ("int f ( int", " [ 1 ]", 999, " ) ;", "ok"),
    ("int f ( int", " * const", 999, " x ) ;", "ok"),
    ("int x = f ( 1", " , 1", 999, " ) ;", "ok"),
    ("int f ( void ) {", " {", 254, " }", "Syntax 1"),
];

#[test]
fn heights(rt: HostRuntime) -> Result<(), Fail> {
    let alloc = rt.alloc();
    for (before, part, times, behind, wanted) in &HEIGHTS {
        let text = repeated(alloc, before, part, *times, behind)?;
        expect(&rt, alloc, text.as_str(), wanted)?;
    }
    Ok(())
}

/// A function that returns 1 in so many parentheses.
fn in_parentheses(alloc: Global, times: usize) -> Result<String, Fail> {
    let mut text = repeated(alloc, "int f ( void ) { return", " (", times, " 1")?;
    text.push_str(repeated(alloc, "", " )", times, " ; }")?.as_str())?;
    Ok(text)
}

/// A function with so many blocks in one another.
fn in_blocks(alloc: Global, times: usize) -> Result<String, Fail> {
    let mut text = repeated(alloc, "int f ( void ) {", " {", times, "")?;
    text.push_str(repeated(alloc, "", " }", times, " }")?.as_str())?;
    Ok(text)
}

#[test]
fn heights_of_nested_parentheses(rt: HostRuntime) -> Result<(), Fail> {
    let alloc = rt.alloc();
    expect(&rt, alloc, in_parentheses(alloc, 253)?.as_str(), "ok")?;
    expect(&rt, alloc, in_parentheses(alloc, 254)?.as_str(), "Syntax 1")
}

#[test]
fn heights_of_nested_blocks(rt: HostRuntime) -> Result<(), Fail> {
    let alloc = rt.alloc();
    expect(&rt, alloc, in_blocks(alloc, 254)?.as_str(), "ok")?;
    expect(&rt, alloc, in_blocks(alloc, 255)?.as_str(), "Syntax 1")
}
