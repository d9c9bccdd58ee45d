//! Objects, pointers, operators and initializers.
use crate::programs::dumps::dumps_to;
use std::test::Fail;

// Members are narrowed, structs are copied; an array lvalue is narrowed to the array and a
// subscript moves the pointer.
#[test]
fn structs(rt: HostRuntime) -> Result<(), Fail> {
    let unit = "\
        struct p{int x;char c[2];};int main(void){struct p a,b;a.x=1;b=a;return b.c[1];}\n\
    ";
    let wanted = "\
        temps 2, width 10\n\
        base 0 automatic size 8 first 0: sint@0 schar@4 schar@5 F@4:2\n\
        base 1 automatic size 8 first 4: sint@0 schar@4 schar@5 F@4:2\n\
        block 0\n\
        \x20 1:32 enter b0\n\
        \x20 1:32 enter b1\n\
        \x20 1:52 forget b0\n\
        \x20 1:54 forget b1\n\
        \x20 1:56 t0 = &b0+0\n\
        \x20 1:57 t0 = narrow t0 at 0 size 4\n\
        \x20 1:60 t1 = 1 s32\n\
        \x20 1:57 store t0 = t1 s32\n\
        \x20 1:62 t0 = &b1+0\n\
        \x20 1:64 t1 = &b0+0\n\
        \x20 1:62 copy t0 = t1 struct 1\n\
        \x20 1:73 t0 = &b1+0\n\
        \x20 1:74 t0 = narrow t0 at 4 size 2\n\
        \x20 1:74 t0 = narrow t0 at 0 size 2\n\
        \x20 1:77 t1 = 1 s32\n\
        \x20 1:76 t0 = shift t0 + t1 * 1\n\
        \x20 1:76 t0 = load t0 s8\n\
        \x20 1:76 t0 = convert t0 s8 to s32\n\
        \x20 1:32 leave b0\n\
        \x20 1:32 leave b1\n\
        \x20 1:66 stop\n\
        block 1\n\
        \x20 1:32 leave b0\n\
        \x20 1:32 leave b1\n\
        \x20 1:32 stop\n\
    ";
    dumps_to(&rt, rt.alloc(), unit, wanted)
}

/// The program of a unit that compares, subtracts and moves pointers.
const POINTERS: &str = "\
    temps 3, width 7\n\
    base 0 automatic size 8 first 0: sint@0 sint@4\n\
    base 1 automatic size 8 first 2: uptr@0\n\
    base 2 automatic size 8 first 3: uptr@0\n\
    block 0\n\
    \x20 1:5 enter b0\n\
    \x20 1:5 enter b1\n\
    \x20 1:5 enter b2\n\
    \x20 1:20 forget b0\n\
    \x20 1:29 t0 = &b1+0\n\
    \x20 1:31 t1 = &b0+0\n\
    \x20 1:31 t1 = narrow t1 at 0 size 8\n\
    \x20 1:29 store t0 = t1 ptr\n\
    \x20 1:37 t0 = &b2+0\n\
    \x20 1:40 t1 = &b0+0\n\
    \x20 1:40 t1 = narrow t1 at 0 size 8\n\
    \x20 1:42 t2 = 1 s32\n\
    \x20 1:41 t1 = shift t1 + t2 * 4\n\
    \x20 1:37 store t0 = t1 ptr\n\
    \x20 1:5 jump\n\
    \x20 -> 1\n\
    block 1\n\
    \x20 1:48 t0 = &b2+0\n\
    \x20 1:48 t0 = load t0 ptr\n\
    \x20 1:50 t1 = &b1+0\n\
    \x20 1:50 t1 = load t1 ptr\n\
    \x20 1:49 t0 = t0 - t1 / 4\n\
    \x20 1:49 branch t0 s64\n\
    \x20 -> 2 true\n\
    \x20 -> 4 false\n\
    block 2\n\
    \x20 1:53 t0 = &b1+0\n\
    \x20 1:53 t0 = load t0 ptr\n\
    \x20 1:55 t1 = &b2+0\n\
    \x20 1:55 t1 = load t1 ptr\n\
    \x20 1:54 t0 = ptr t0 < t1\n\
    \x20 1:54 branch t0 s32\n\
    \x20 -> 3 true\n\
    \x20 -> 4 false\n\
    block 3\n\
    \x20 1:57 t0 = &b1+0\n\
    \x20 1:60 t1 = 1 s32\n\
    \x20 1:57 t2 = load t0 ptr\n\
    \x20 1:58 t1 = shift t2 + t1 * 4\n\
    \x20 1:57 store t0 = t1 ptr\n\
    \x20 1:5 jump\n\
    \x20 -> 4\n\
    block 4\n\
    \x20 1:69 t0 = &b1+0\n\
    \x20 1:69 t0 = load t0 ptr\n\
    \x20 1:72 t1 = &b2+0\n\
    \x20 1:72 t1 = load t1 ptr\n\
    \x20 1:70 t0 = ptr t0 == t1\n\
    \x20 1:5 leave b0\n\
    \x20 1:5 leave b1\n\
    \x20 1:5 leave b2\n\
    \x20 1:62 stop\n\
    block 5\n\
    \x20 1:5 leave b0\n\
    \x20 1:5 leave b1\n\
    \x20 1:5 leave b2\n\
    \x20 1:5 stop\n\
";

// Differences and relations of pointers, and a pointer that is moved; without a null constant a
// condition on pointers has no test.
#[test]
fn pointers(rt: HostRuntime) -> Result<(), Fail> {
    let unit = "\
        int main(void){int a[2];int*p=a;int*q=&a[1];if(q-p&&p<q)p+=1;return p==q;}\n\
    ";
    dumps_to(&rt, rt.alloc(), unit, POINTERS)
}

// Conversions, a postfix step whose old value is used, a compound assignment in the common type,
// unary operators.
#[test]
fn operators(rt: HostRuntime) -> Result<(), Fail> {
    let unit = "\
        int main(void){char c=1;unsigned u=c++;c+=2;u=-u<<1;return ~c%3+!u;}\n\
    ";
    let wanted = "\
        temps 4, width 6\n\
        base 0 automatic size 1 first 0: schar@0\n\
        base 1 automatic size 4 first 1: uint@0\n\
        block 0\n\
        \x20 1:5 enter b0\n\
        \x20 1:5 enter b1\n\
        \x20 1:21 t0 = &b0+0\n\
        \x20 1:23 t1 = 1 s32\n\
        \x20 1:23 t1 = convert t1 s32 to s8\n\
        \x20 1:21 store t0 = t1 s8\n\
        \x20 1:34 t0 = &b1+0\n\
        \x20 1:36 t1 = &b0+0\n\
        \x20 1:36 t2 = load t1 s8\n\
        \x20 1:37 t3 = convert t2 s8 to s32\n\
        \x20 1:37 t3 = t3 + 1 s32\n\
        \x20 1:37 t3 = convert t3 s32 to s8\n\
        \x20 1:36 store t1 = t3 s8 ; t1 = t2\n\
        \x20 1:37 t1 = convert t1 s8 to u32\n\
        \x20 1:34 store t0 = t1 u32\n\
        \x20 1:40 t0 = &b0+0\n\
        \x20 1:43 t1 = 2 s32\n\
        \x20 1:40 t2 = load t0 s8\n\
        \x20 1:41 t2 = convert t2 s8 to s32\n\
        \x20 1:41 t1 = t2 + t1 s32\n\
        \x20 1:41 t1 = convert t1 s32 to s8\n\
        \x20 1:40 store t0 = t1 s8\n\
        \x20 1:45 t0 = &b1+0\n\
        \x20 1:48 t1 = &b1+0\n\
        \x20 1:48 t1 = load t1 u32\n\
        \x20 1:47 t1 = -t1 u32\n\
        \x20 1:51 t2 = 1 s32\n\
        \x20 1:49 t1 = t1 << t2 u32\n\
        \x20 1:45 store t0 = t1 u32\n\
        \x20 1:61 t0 = &b0+0\n\
        \x20 1:61 t0 = load t0 s8\n\
        \x20 1:61 t0 = convert t0 s8 to s32\n\
        \x20 1:60 t0 = ~t0 s32\n\
        \x20 1:63 t1 = 3 s32\n\
        \x20 1:62 t0 = t0 % t1 s32\n\
        \x20 1:66 t1 = &b1+0\n\
        \x20 1:66 t1 = load t1 u32\n\
        \x20 1:65 t1 = !t1 u32\n\
        \x20 1:64 t0 = t0 + t1 s32\n\
        \x20 1:5 leave b0\n\
        \x20 1:5 leave b1\n\
        \x20 1:53 stop\n\
        block 1\n\
        \x20 1:5 leave b0\n\
        \x20 1:5 leave b1\n\
        \x20 1:5 stop\n\
    ";
    dumps_to(&rt, rt.alloc(), unit, wanted)
}

// An initializer with braces or a literal is one clear, and then stores and spells in order; a
// struct is copied from an lvalue; sizeof is a constant.
#[test]
fn initializers(rt: HostRuntime) -> Result<(), Fail> {
    let unit = "\
        struct v{int a;int b[2];};int main(void){char s[4]=\"ab\";struct v w={1,{2}};struct v z=w;return sizeof z;}\n\
    ";
    let wanted = "\
        temps 2, width 13\n\
        base 0 automatic size 4 first 0: schar@0 schar@1 schar@2 schar@3 F@0:4\n\
        base 1 automatic size 12 first 5: sint@0 sint@4 sint@8\n\
        base 2 automatic size 12 first 8: sint@0 sint@4 sint@8\n\
        block 0\n\
        \x20 1:31 enter b0\n\
        \x20 1:31 enter b1\n\
        \x20 1:31 enter b2\n\
        \x20 1:47 clear b0\n\
        \x20 1:47 spell b0+0 room 4, 2 bytes\n\
        \x20 1:66 clear b1\n\
        \x20 1:66 t0 = &b1+0\n\
        \x20 1:69 t1 = 1 s32\n\
        \x20 1:66 store t0 = t1 s32\n\
        \x20 1:66 t0 = &b1+4\n\
        \x20 1:72 t1 = 2 s32\n\
        \x20 1:66 store t0 = t1 s32\n\
        \x20 1:85 t0 = &b2+0\n\
        \x20 1:87 t1 = &b1+0\n\
        \x20 1:85 copy t0 = t1 struct 1\n\
        \x20 1:96 t0 = 12 u64\n\
        \x20 1:96 t0 = convert t0 u64 to s32\n\
        \x20 1:31 leave b0\n\
        \x20 1:31 leave b1\n\
        \x20 1:31 leave b2\n\
        \x20 1:89 stop\n\
        block 1\n\
        \x20 1:31 leave b0\n\
        \x20 1:31 leave b1\n\
        \x20 1:31 leave b2\n\
        \x20 1:31 stop\n\
    ";
    dumps_to(&rt, rt.alloc(), unit, wanted)
}

// Bases in order of first naming: an allocation has a newest and an older one; an object of static
// storage brings in what its initializer names; one that no code names has none.
#[test]
fn bases(rt: HostRuntime) -> Result<(), Fail> {
    let unit = "\
        int k=3;int*p=&k;char*s=\"hi\";static int unused;int main(void){char*m=malloc(2);if(m!=0)m[0]=*s;free(m);return *p;}\n\
    ";
    let wanted = "\
        temps 2, width 26\n\
        base 0 automatic size 8 first 0: uptr@0\n\
        base 1 newest size 0 first 1: F@0\n\
        base 2 older size 0 first 9: F@0\n\
        base 3 static size 8 first 17: uptr@0\n\
        base 4 literal size 3 first 18: schar@0 schar@1 schar@2 F@0:3\n\
        base 5 static size 8 first 22: uptr@0\n\
        base 6 static size 4 first 23: sint@0\n\
        block 0\n\
        \x20 1:52 enter b0\n\
        \x20 1:68 t0 = &b0+0\n\
        \x20 1:77 t1 = 2 s32\n\
        \x20 1:77 t1 = convert t1 s32 to u64\n\
        \x20 1:70 t1 = malloc t1 newest b1 for size 1\n\
        \x20 1:70 t1 = convert t1 ptr to ptr\n\
        \x20 1:68 store t0 = t1 ptr\n\
        \x20 1:52 jump\n\
        \x20 -> 1\n\
        block 1\n\
        \x20 1:83 t0 = &b0+0\n\
        \x20 1:83 t0 = load t0 ptr\n\
        \x20 1:86 t1 = 0 s32\n\
        \x20 1:86 t1 = convert t1 s32 to ptr\n\
        \x20 1:84 t0 = ptr t0 != t1\n\
        \x20 1:84 branch t0 s32\n\
        \x20 -> 2 true test b0 != null\n\
        \x20 -> 3 false test b0 == null\n\
        block 2\n\
        \x20 1:88 t0 = &b0+0\n\
        \x20 1:88 t0 = load t0 ptr\n\
        \x20 1:90 t1 = 0 s32\n\
        \x20 1:89 t0 = shift t0 + t1 * 1\n\
        \x20 1:94 t1 = &b3+0\n\
        \x20 1:94 t1 = load t1 ptr\n\
        \x20 1:93 t1 = load t1 s8\n\
        \x20 1:89 store t0 = t1 s8\n\
        \x20 1:52 jump\n\
        \x20 -> 3\n\
        block 3\n\
        \x20 1:101 t0 = &b0+0\n\
        \x20 1:101 t0 = load t0 ptr\n\
        \x20 1:101 t0 = convert t0 ptr to ptr\n\
        \x20 1:96 free t0\n\
        \x20 1:112 t0 = &b5+0\n\
        \x20 1:112 t0 = load t0 ptr\n\
        \x20 1:111 t0 = load t0 s32\n\
        \x20 1:52 leave b0\n\
        \x20 1:104 stop\n\
        block 4\n\
        \x20 1:52 leave b0\n\
        \x20 1:52 stop\n\
    ";
    dumps_to(&rt, rt.alloc(), unit, wanted)
}
