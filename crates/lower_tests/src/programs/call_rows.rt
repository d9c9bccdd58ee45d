//! Calls of functions of the unit.
use crate::programs::dumps::dumps_to;
use std::test::Fail;

/// The program of two calls of one function.
const TWO_CALLS: &str = "\
    temps 4, width 11\n\
    base 0 automatic size 4 first 0: sint@0\n\
    base 1 automatic size 4 first 1: sint@0\n\
    base 2 automatic size 4 first 2: sint@0\n\
    base 3 automatic size 4 first 3: sint@0\n\
    base 4 automatic size 4 first 4: sint@0\n\
    base 5 automatic size 4 first 5: sint@0\n\
    base 6 automatic size 4 first 6: sint@0\n\
    block 0\n\
    \x20 1:48 enter b0\n\
    \x20 1:63 t0 = &b0+0\n\
    \x20 1:67 t1 = 1 s32\n\
    \x20 1:69 t2 = 2 s32\n\
    \x20 1:65 jump\n\
    \x20 -> 1\n\
    block 1\n\
    \x20 1:5 enter b1\n\
    \x20 1:5 enter b2\n\
    \x20 1:5 enter b3\n\
    \x20 1:5 t3 = &b1+0\n\
    \x20 1:5 store t3 = t1 s32\n\
    \x20 1:5 t3 = &b2+0\n\
    \x20 1:5 store t3 = t2 s32\n\
    \x20 1:65 jump\n\
    \x20 -> 2\n\
    block 2\n\
    \x20 1:23 t1 = &b1+0\n\
    \x20 1:23 t1 = load t1 s32\n\
    \x20 1:23 branch t1 s32\n\
    \x20 -> 3 true test b1 != 0 in s32\n\
    \x20 -> 4 false test b1 == 0 in s32\n\
    block 3\n\
    \x20 1:25 t1 = &b3+0\n\
    \x20 1:32 t2 = &b2+0\n\
    \x20 1:32 t2 = load t2 s32\n\
    \x20 1:25 store t1 = t2 s32\n\
    \x20 1:5 leave b1\n\
    \x20 1:5 leave b2\n\
    \x20 1:5 jump\n\
    \x20 -> 6\n\
    block 4\n\
    \x20 1:34 t1 = &b3+0\n\
    \x20 1:41 t2 = &b1+0\n\
    \x20 1:41 t2 = load t2 s32\n\
    \x20 1:34 store t1 = t2 s32\n\
    \x20 1:5 leave b1\n\
    \x20 1:5 leave b2\n\
    \x20 1:5 jump\n\
    \x20 -> 6\n\
    block 5\n\
    \x20 1:5 leave b1\n\
    \x20 1:5 leave b2\n\
    \x20 1:65 jump\n\
    \x20 -> 6\n\
    block 6\n\
    \x20 1:65 t1 = &b3+0\n\
    \x20 1:65 t1 = load t1 s32\n\
    \x20 1:5 leave b3\n\
    \x20 1:63 store t0 = t1 s32\n\
    \x20 1:74 t0 = 3 s32\n\
    \x20 1:76 t1 = &b0+0\n\
    \x20 1:76 t1 = load t1 s32\n\
    \x20 1:72 jump\n\
    \x20 -> 7\n\
    block 7\n\
    \x20 1:5 enter b4\n\
    \x20 1:5 enter b5\n\
    \x20 1:5 enter b6\n\
    \x20 1:5 t2 = &b4+0\n\
    \x20 1:5 store t2 = t0 s32\n\
    \x20 1:5 t2 = &b5+0\n\
    \x20 1:5 store t2 = t1 s32\n\
    \x20 1:72 jump\n\
    \x20 -> 8\n\
    block 8\n\
    \x20 1:23 t0 = &b4+0\n\
    \x20 1:23 t0 = load t0 s32\n\
    \x20 1:23 branch t0 s32\n\
    \x20 -> 9 true test b4 != 0 in s32\n\
    \x20 -> 10 false test b4 == 0 in s32\n\
    block 9\n\
    \x20 1:25 t0 = &b6+0\n\
    \x20 1:32 t1 = &b5+0\n\
    \x20 1:32 t1 = load t1 s32\n\
    \x20 1:25 store t0 = t1 s32\n\
    \x20 1:5 leave b4\n\
    \x20 1:5 leave b5\n\
    \x20 1:5 jump\n\
    \x20 -> 12\n\
    block 10\n\
    \x20 1:34 t0 = &b6+0\n\
    \x20 1:41 t1 = &b4+0\n\
    \x20 1:41 t1 = load t1 s32\n\
    \x20 1:34 store t0 = t1 s32\n\
    \x20 1:5 leave b4\n\
    \x20 1:5 leave b5\n\
    \x20 1:5 jump\n\
    \x20 -> 12\n\
    block 11\n\
    \x20 1:5 leave b4\n\
    \x20 1:5 leave b5\n\
    \x20 1:72 jump\n\
    \x20 -> 12\n\
    block 12\n\
    \x20 1:5 leave b6\n\
    \x20 1:86 t0 = &b0+0\n\
    \x20 1:86 t0 = load t0 s32\n\
    \x20 1:48 leave b0\n\
    \x20 1:79 stop\n\
    block 13\n\
    \x20 1:48 leave b0\n\
    \x20 1:48 stop\n\
";

// A call: the arguments in the temporaries from the first free one on, then parameters, body,
// after; each return goes to after. The result is loaded only where the call's value is used. Each
// copy has bases of its own.
#[test]
fn calls(rt: HostRuntime) -> Result<(), Fail> {
    let unit = "\
        int f(int x,int y){if(x)return y;return x;}int main(void){int r=f(1,2);f(3,r);return r;}\n\
    ";
    dumps_to(&rt, rt.alloc(), unit, TWO_CALLS)
}

// A call without instruction, parameter and result adds nothing; a void function has no object of
// its result.
#[test]
fn void_calls(rt: HostRuntime) -> Result<(), Fail> {
    let unit = "\
        void g(void){}void h(int p){;}int main(void){g();h(1);return 0;}\n\
    ";
    let wanted = "\
        temps 2, width 3\n\
        base 0 automatic size 4 first 0: sint@0\n\
        block 0\n\
        \x20 1:52 t0 = 1 s32\n\
        \x20 1:50 jump\n\
        \x20 -> 1\n\
        block 1\n\
        \x20 1:20 enter b0\n\
        \x20 1:20 t1 = &b0+0\n\
        \x20 1:20 store t1 = t0 s32\n\
        \x20 1:50 jump\n\
        \x20 -> 2\n\
        block 2\n\
        \x20 1:20 leave b0\n\
        \x20 1:50 jump\n\
        \x20 -> 3\n\
        block 3\n\
        \x20 1:62 t0 = 0 s32\n\
        \x20 1:55 stop\n\
        block 4\n\
        \x20 1:35 stop\n\
    ";
    dumps_to(&rt, rt.alloc(), unit, wanted)
}

// A call under a cast to void and on the left of a comma: its value is not used.
#[test]
fn unused_values(rt: HostRuntime) -> Result<(), Fail> {
    let unit = "\
        int f(void){return 1;}int main(void){(void)f();int a=(f(),2);return a;}\n\
    ";
    let wanted = "\
        temps 3, width 6\n\
        base 0 automatic size 4 first 0: sint@0\n\
        base 1 automatic size 4 first 1: sint@0\n\
        base 2 automatic size 4 first 2: sint@0\n\
        block 0\n\
        \x20 1:27 enter b0\n\
        \x20 1:44 jump\n\
        \x20 -> 1\n\
        block 1\n\
        \x20 1:5 enter b1\n\
        \x20 1:44 jump\n\
        \x20 -> 2\n\
        block 2\n\
        \x20 1:13 t0 = &b1+0\n\
        \x20 1:20 t1 = 1 s32\n\
        \x20 1:13 store t0 = t1 s32\n\
        \x20 1:5 jump\n\
        \x20 -> 3\n\
        block 3\n\
        \x20 1:5 leave b1\n\
        \x20 1:52 t0 = &b0+0\n\
        \x20 1:55 jump\n\
        \x20 -> 4\n\
        block 4\n\
        \x20 1:5 enter b2\n\
        \x20 1:55 jump\n\
        \x20 -> 5\n\
        block 5\n\
        \x20 1:13 t1 = &b2+0\n\
        \x20 1:20 t2 = 1 s32\n\
        \x20 1:13 store t1 = t2 s32\n\
        \x20 1:5 jump\n\
        \x20 -> 6\n\
        block 6\n\
        \x20 1:5 leave b2\n\
        \x20 1:59 t1 = 2 s32\n\
        \x20 1:52 store t0 = t1 s32\n\
        \x20 1:69 t0 = &b0+0\n\
        \x20 1:69 t0 = load t0 s32\n\
        \x20 1:27 leave b0\n\
        \x20 1:62 stop\n\
        block 7\n\
        \x20 1:27 leave b0\n\
        \x20 1:27 stop\n\
    ";
    dumps_to(&rt, rt.alloc(), unit, wanted)
}
