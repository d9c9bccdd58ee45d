//! How units are grouped.
use crate::grammar::outlines::{group_declarators, group_initializers, group_statements};
use std::test::Fail;

const OPERATORS: [(&str, &str); 16] = [
    ("int x = a + b * c ;", "(+ 4 (* 6 8))"),
    ("int x = a * b + c ;", "(+ (* 4 6) 8)"),
    ("int x = a - b - c ;", "(- (- 4 6) 8)"),
    ("int x = a < b == c ;", "(== (< 4 6) 8)"),
    (
        "int x = a | b ^ c & d << e ;",
        "(| 4 (^ 6 (& 8 (<< 10 12))))",
    ),
    ("int x = a = b = c ;", "(= 4 (= 6 8))"),
    (
        "int x = a ? b , c : d ? e : f ;",
        "(? 4 (, 6 8) (? 10 12 14))",
    ),
    (
        "int x = a || b && c || d ;",
        "(logical (logical 4 (logical 6 8)) 10)",
    ),
    ("int x = - a [ 1 ] ;", "(un ([] 5 7))"),
    ("int x = * a ++ ;", "(un (post 5))"),
    ("int x = ++ a . b ;", "(pre (. 5))"),
    ("int x = ( int ) a + b ;", "(+ (cast 7) 9)"),
    ("int x = sizeof a + b ;", "(+ (sizeof 5) 7)"),
    ("int x = sizeof ( int ) * a ;", "(* (sizeof type) 9)"),
    ("int x = ( a , b ) ;", "(() (, 5 7))"),
    ("int x = ! f ( a , b ) -> c ;", "(un (-> (call 7 9)))"),
];

#[test]
fn operators(rt: HostRuntime) -> Result<(), Fail> {
    group_initializers(&rt, rt.alloc(), &OPERATORS)
}

const DECLARATORS: [(&str, &str); 4] = [
    ("int x ;", "*0 []0 / 2"),
    ("int * x [ 3 ] ;", "*1 []1 / 3"),
    ("int ( * x ) [ 3 ] [ 4 ] ;", "*0 []2 / *1 []0 / 4"),
    ("int * ( ( x ) ) ;", "*1 []0 / *0 []0 / *0 []0 / 5"),
];

#[test]
fn declarators(rt: HostRuntime) -> Result<(), Fail> {
    group_declarators(&rt, rt.alloc(), &DECLARATORS)
}

const STATEMENTS: [(&str, &str); 6] = [
    (
        "int f ( ) { if ( a ) if ( b ) ; else c ; }",
        "(if (if (;) (e)))",
    ),
    (
        "int f ( ) { if ( a ) { if ( b ) ; } else ; }",
        "(if ({}) (;))",
    ),
    (
        "int f ( ) { if ( a ) ; else if ( b ) ; else return ; }",
        "(if (;) (if (;) (jump)))",
    ),
    (
        "int f ( ) { l : while ( a ) do ; while ( b ) ; }",
        "(label (while (do (;))))",
    ),
    (
        "int f ( ) { switch ( a ) case 1 : default : for ( ; ; ) ; }",
        "(switch (case (default (for (;)))))",
    ),
    ("int f ( ) { int x ; }", "(local)"),
];

#[test]
fn statements(rt: HostRuntime) -> Result<(), Fail> {
    group_statements(&rt, rt.alloc(), &STATEMENTS)
}
