//! Conditions, terms that branch, and `fgets`.
use crate::programs::dumps::dumps_to;
use std::test::Fail;

// && and || as values: each operand ends in a branch, whose edges put 0 or 1; no operand is a
// test.
#[test]
fn logical_values(rt: HostRuntime) -> Result<(), Fail> {
    let unit = "\
        int main(void){int a=1;return a&&2||a;}\n\
    ";
    let wanted = "\
        temps 2, width 3\n\
        base 0 automatic size 4 first 0: sint@0\n\
        block 0\n\
        \x20 1:5 enter b0\n\
        \x20 1:20 t0 = &b0+0\n\
        \x20 1:22 t1 = 1 s32\n\
        \x20 1:20 store t0 = t1 s32\n\
        \x20 1:5 jump\n\
        \x20 -> 1\n\
        block 1\n\
        \x20 1:31 t0 = &b0+0\n\
        \x20 1:31 t0 = load t0 s32\n\
        \x20 1:31 branch t0 s32\n\
        \x20 -> 2 true\n\
        \x20 -> 3 false put t0 = 0\n\
        block 2\n\
        \x20 1:34 t0 = 2 s32\n\
        \x20 1:34 branch t0 s32\n\
        \x20 -> 3 true put t0 = 1\n\
        \x20 -> 3 false put t0 = 0\n\
        block 3\n\
        \x20 1:32 branch t0 s32\n\
        \x20 -> 5 true put t0 = 1\n\
        \x20 -> 4 false\n\
        block 4\n\
        \x20 1:37 t0 = &b0+0\n\
        \x20 1:37 t0 = load t0 s32\n\
        \x20 1:37 branch t0 s32\n\
        \x20 -> 5 true put t0 = 1\n\
        \x20 -> 5 false put t0 = 0\n\
        block 5\n\
        \x20 1:5 leave b0\n\
        \x20 1:24 stop\n\
        block 6\n\
        \x20 1:5 leave b0\n\
        \x20 1:5 stop\n\
    ";
    dumps_to(&rt, rt.alloc(), unit, wanted)
}

// ?: as a value: each operand a block, after; its first operand is a test. A conversion is an
// instruction.
#[test]
fn conditional_value(rt: HostRuntime) -> Result<(), Fail> {
    let unit = "\
        int main(void){int a=1;char c=a?a:2;return c;}\n\
    ";
    let wanted = "\
        temps 2, width 4\n\
        base 0 automatic size 4 first 0: sint@0\n\
        base 1 automatic size 1 first 1: schar@0\n\
        block 0\n\
        \x20 1:5 enter b0\n\
        \x20 1:5 enter b1\n\
        \x20 1:20 t0 = &b0+0\n\
        \x20 1:22 t1 = 1 s32\n\
        \x20 1:20 store t0 = t1 s32\n\
        \x20 1:29 t0 = &b1+0\n\
        \x20 1:5 jump\n\
        \x20 -> 1\n\
        block 1\n\
        \x20 1:31 t1 = &b0+0\n\
        \x20 1:31 t1 = load t1 s32\n\
        \x20 1:31 branch t1 s32\n\
        \x20 -> 2 true test b0 != 0 in s32\n\
        \x20 -> 3 false test b0 == 0 in s32\n\
        block 2\n\
        \x20 1:33 t1 = &b0+0\n\
        \x20 1:33 t1 = load t1 s32\n\
        \x20 1:5 jump\n\
        \x20 -> 4\n\
        block 3\n\
        \x20 1:35 t1 = 2 s32\n\
        \x20 1:5 jump\n\
        \x20 -> 4\n\
        block 4\n\
        \x20 1:32 t1 = convert t1 s32 to s8\n\
        \x20 1:29 store t0 = t1 s8\n\
        \x20 1:44 t0 = &b1+0\n\
        \x20 1:44 t0 = load t0 s8\n\
        \x20 1:44 t0 = convert t0 s8 to s32\n\
        \x20 1:5 leave b0\n\
        \x20 1:5 leave b1\n\
        \x20 1:37 stop\n\
        block 5\n\
        \x20 1:5 leave b0\n\
        \x20 1:5 leave b1\n\
        \x20 1:5 stop\n\
    ";
    dumps_to(&rt, rt.alloc(), unit, wanted)
}

// &&, || and ! in a condition go straight to its targets; each operand that names an object is a
// test.
#[test]
fn conditions(rt: HostRuntime) -> Result<(), Fail> {
    let unit = "\
        int main(void){int a=1;int b=2;if(!(a<b)||a&&b!=3)return 1;return 0;}\n\
    ";
    let wanted = "\
        temps 2, width 4\n\
        base 0 automatic size 4 first 0: sint@0\n\
        base 1 automatic size 4 first 1: sint@0\n\
        block 0\n\
        \x20 1:5 enter b0\n\
        \x20 1:5 enter b1\n\
        \x20 1:20 t0 = &b0+0\n\
        \x20 1:22 t1 = 1 s32\n\
        \x20 1:20 store t0 = t1 s32\n\
        \x20 1:28 t0 = &b1+0\n\
        \x20 1:30 t1 = 2 s32\n\
        \x20 1:28 store t0 = t1 s32\n\
        \x20 1:5 jump\n\
        \x20 -> 1\n\
        block 1\n\
        \x20 1:37 t0 = &b0+0\n\
        \x20 1:37 t0 = load t0 s32\n\
        \x20 1:39 t1 = &b1+0\n\
        \x20 1:39 t1 = load t1 s32\n\
        \x20 1:38 t0 = t0 < t1\n\
        \x20 1:38 branch t0 s32\n\
        \x20 -> 2 true test b0 < b1 in s32\n\
        \x20 -> 4 false test b0 >= b1 in s32\n\
        block 2\n\
        \x20 1:43 t0 = &b0+0\n\
        \x20 1:43 t0 = load t0 s32\n\
        \x20 1:43 branch t0 s32\n\
        \x20 -> 3 true test b0 != 0 in s32\n\
        \x20 -> 5 false test b0 == 0 in s32\n\
        block 3\n\
        \x20 1:46 t0 = &b1+0\n\
        \x20 1:46 t0 = load t0 s32\n\
        \x20 1:49 t1 = 3 s32\n\
        \x20 1:47 t0 = t0 != t1\n\
        \x20 1:47 branch t0 s32\n\
        \x20 -> 4 true test b1 != 3 in s32\n\
        \x20 -> 5 false test b1 == 3 in s32\n\
        block 4\n\
        \x20 1:58 t0 = 1 s32\n\
        \x20 1:5 leave b0\n\
        \x20 1:5 leave b1\n\
        \x20 1:51 stop\n\
        block 5\n\
        \x20 1:67 t0 = 0 s32\n\
        \x20 1:5 leave b0\n\
        \x20 1:5 leave b1\n\
        \x20 1:60 stop\n\
        block 6\n\
        \x20 1:5 leave b0\n\
        \x20 1:5 leave b1\n\
        \x20 1:5 stop\n\
    ";
    dumps_to(&rt, rt.alloc(), unit, wanted)
}

// A condition that compares fgets with a null constant: the edges, null and then success, go to
// its targets, the constant is no instruction, and the result is kept nowhere.
#[test]
fn line_condition(rt: HostRuntime) -> Result<(), Fail> {
    let unit = "\
        #include <stdio.h>\n\
        int main(void){char s[4];if(fgets(s,4,stdin)==0)return 1;return 0;}\n\
    ";
    let wanted = "\
        temps 3, width 9\n\
        base 0 automatic size 4 first 0: schar@0 schar@1 schar@2 schar@3 F@0:4\n\
        base 1 static size 1 first 5: schar@0\n\
        block 0\n\
        \x20 2:5 enter b0\n\
        \x20 2:21 forget b0\n\
        \x20 2:5 jump\n\
        \x20 -> 1\n\
        block 1\n\
        \x20 2:35 t0 = &b0+0\n\
        \x20 2:35 t0 = narrow t0 at 0 size 4\n\
        \x20 2:37 t1 = 4 s32\n\
        \x20 2:39 t2 = &b1+0\n\
        \x20 2:29 fgets t0 t1 t2\n\
        \x20 -> 2 no line\n\
        \x20 -> 3 line\n\
        block 2\n\
        \x20 2:56 t0 = 1 s32\n\
        \x20 2:5 leave b0\n\
        \x20 2:49 stop\n\
        block 3\n\
        \x20 2:65 t0 = 0 s32\n\
        \x20 2:5 leave b0\n\
        \x20 2:58 stop\n\
        block 4\n\
        \x20 2:5 leave b0\n\
        \x20 2:5 stop\n\
    ";
    dumps_to(&rt, rt.alloc(), unit, wanted)
}

// fgets as a value: both edges go to one block.
#[test]
fn line_value(rt: HostRuntime) -> Result<(), Fail> {
    let unit = "\
        #include <stdio.h>\n\
        int main(void){char s[4];char*p=fgets(s,4,stdin);return p==s;}\n\
    ";
    let wanted = "\
        temps 4, width 11\n\
        base 0 automatic size 4 first 0: schar@0 schar@1 schar@2 schar@3 F@0:4\n\
        base 1 automatic size 8 first 5: uptr@0\n\
        base 2 static size 1 first 6: schar@0\n\
        block 0\n\
        \x20 2:5 enter b0\n\
        \x20 2:5 enter b1\n\
        \x20 2:21 forget b0\n\
        \x20 2:31 t0 = &b1+0\n\
        \x20 2:39 t1 = &b0+0\n\
        \x20 2:39 t1 = narrow t1 at 0 size 4\n\
        \x20 2:41 t2 = 4 s32\n\
        \x20 2:43 t3 = &b2+0\n\
        \x20 2:33 t1 = fgets t1 t2 t3\n\
        \x20 -> 1 no line\n\
        \x20 -> 1 line\n\
        block 1\n\
        \x20 2:31 store t0 = t1 ptr\n\
        \x20 2:57 t0 = &b1+0\n\
        \x20 2:57 t0 = load t0 ptr\n\
        \x20 2:60 t1 = &b0+0\n\
        \x20 2:60 t1 = narrow t1 at 0 size 4\n\
        \x20 2:58 t0 = ptr t0 == t1\n\
        \x20 2:5 leave b0\n\
        \x20 2:5 leave b1\n\
        \x20 2:50 stop\n\
        block 2\n\
        \x20 2:5 leave b0\n\
        \x20 2:5 leave b1\n\
        \x20 2:5 stop\n\
    ";
    dumps_to(&rt, rt.alloc(), unit, wanted)
}
