//! Loops.
use crate::programs::dumps::dumps_to;
use std::test::Fail;

// while: condition, body, after; break and continue. The jump back stands also behind the
// continue.
#[test]
fn while_loop(rt: HostRuntime) -> Result<(), Fail> {
    let unit = "\
        int main(void){int i=0;while(i<3){if(i==1)break;i=i+1;continue;}return i;}\n\
    ";
    let wanted = "\
        temps 3, width 4\n\
        base 0 automatic size 4 first 0: sint@0\n\
        block 0\n\
        \x20 1:5 enter b0\n\
        \x20 1:20 t0 = &b0+0\n\
        \x20 1:22 t1 = 0 s32\n\
        \x20 1:20 store t0 = t1 s32\n\
        \x20 1:5 jump\n\
        \x20 -> 1\n\
        block 1 head\n\
        \x20 1:30 t0 = &b0+0\n\
        \x20 1:30 t0 = load t0 s32\n\
        \x20 1:32 t1 = 3 s32\n\
        \x20 1:31 t0 = t0 < t1\n\
        \x20 1:31 branch t0 s32\n\
        \x20 -> 2 true test b0 < 3 in s32\n\
        \x20 -> 6 false test b0 >= 3 in s32\n\
        block 2\n\
        \x20 1:38 t0 = &b0+0\n\
        \x20 1:38 t0 = load t0 s32\n\
        \x20 1:41 t1 = 1 s32\n\
        \x20 1:39 t0 = t0 == t1\n\
        \x20 1:39 branch t0 s32\n\
        \x20 -> 3 true test b0 == 1 in s32\n\
        \x20 -> 4 false test b0 != 1 in s32\n\
        block 3\n\
        \x20 1:5 jump\n\
        \x20 -> 6\n\
        block 4\n\
        \x20 1:49 t0 = &b0+0\n\
        \x20 1:51 t1 = &b0+0\n\
        \x20 1:51 t1 = load t1 s32\n\
        \x20 1:53 t2 = 1 s32\n\
        \x20 1:52 t1 = t1 + t2 s32\n\
        \x20 1:49 store t0 = t1 s32\n\
        \x20 1:5 jump\n\
        \x20 -> 1\n\
        block 5\n\
        \x20 1:5 jump\n\
        \x20 -> 1\n\
        block 6\n\
        \x20 1:72 t0 = &b0+0\n\
        \x20 1:72 t0 = load t0 s32\n\
        \x20 1:5 leave b0\n\
        \x20 1:65 stop\n\
        block 7\n\
        \x20 1:5 leave b0\n\
        \x20 1:5 stop\n\
    ";
    dumps_to(&rt, rt.alloc(), unit, wanted)
}

// do: body, condition, after. The 1 of ++ is in the instruction.
#[test]
fn do_loop(rt: HostRuntime) -> Result<(), Fail> {
    let unit = "\
        int main(void){int i=0;do i++;while(i<3);return 0;}\n\
    ";
    let wanted = "\
        temps 2, width 3\n\
        base 0 automatic size 4 first 0: sint@0\n\
        block 0\n\
        \x20 1:5 enter b0\n\
        \x20 1:20 t0 = &b0+0\n\
        \x20 1:22 t1 = 0 s32\n\
        \x20 1:20 store t0 = t1 s32\n\
        \x20 1:5 jump\n\
        \x20 -> 1\n\
        block 1 head\n\
        \x20 1:27 t0 = &b0+0\n\
        \x20 1:27 t1 = load t0 s32\n\
        \x20 1:28 t1 = t1 + 1 s32\n\
        \x20 1:27 store t0 = t1 s32\n\
        \x20 1:5 jump\n\
        \x20 -> 2\n\
        block 2\n\
        \x20 1:37 t0 = &b0+0\n\
        \x20 1:37 t0 = load t0 s32\n\
        \x20 1:39 t1 = 3 s32\n\
        \x20 1:38 t0 = t0 < t1\n\
        \x20 1:38 branch t0 s32\n\
        \x20 -> 1 true test b0 < 3 in s32\n\
        \x20 -> 3 false test b0 >= 3 in s32\n\
        block 3\n\
        \x20 1:49 t0 = 0 s32\n\
        \x20 1:5 leave b0\n\
        \x20 1:42 stop\n\
        block 4\n\
        \x20 1:5 leave b0\n\
        \x20 1:5 stop\n\
    ";
    dumps_to(&rt, rt.alloc(), unit, wanted)
}

// for whose condition and step are left out: a condition that is left out has no branch, a step
// that is left out is a jump back. The object of the first clause is left behind the loop.
#[test]
fn for_loop(rt: HostRuntime) -> Result<(), Fail> {
    let unit = "\
        int main(void){for(int i=0;;){break;}return 0;}\n\
    ";
    let wanted = "\
        temps 2, width 3\n\
        base 0 automatic size 4 first 0: sint@0\n\
        block 0\n\
        \x20 1:5 enter b0\n\
        \x20 1:24 t0 = &b0+0\n\
        \x20 1:26 t1 = 0 s32\n\
        \x20 1:24 store t0 = t1 s32\n\
        \x20 1:5 jump\n\
        \x20 -> 1\n\
        block 1 head\n\
        \x20 1:5 jump\n\
        \x20 -> 3\n\
        block 2\n\
        \x20 1:5 jump\n\
        \x20 -> 1\n\
        block 3\n\
        \x20 1:5 leave b0\n\
        \x20 1:45 t0 = 0 s32\n\
        \x20 1:38 stop\n\
        block 4\n\
        \x20 1:5 stop\n\
    ";
    dumps_to(&rt, rt.alloc(), unit, wanted)
}
