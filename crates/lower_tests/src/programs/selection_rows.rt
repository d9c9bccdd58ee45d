//! Selections, labels and jumps.
use crate::programs::dumps::dumps_to;
use std::test::Fail;

// A body without instructions is a stop alone.
#[test]
fn nothing(rt: HostRuntime) -> Result<(), Fail> {
    let unit = "\
        int main(void){;}\n\
    ";
    let wanted = "\
        temps 0, width 0\n\
        block 0\n\
        \x20 1:5 stop\n\
    ";
    dumps_to(&rt, rt.alloc(), unit, wanted)
}

// if: condition, then part, after. A return of the entry leaves its block and stops; behind it the
// end of the body is a block that nothing reaches.
#[test]
fn selection(rt: HostRuntime) -> Result<(), Fail> {
    let unit = "\
        int main(void){int a=1;if(a)a=2;return a;}\n\
    ";
    let wanted = "\
        temps 2, width 3\n\
        base 0 automatic size 4 first 0: sint@0\n\
        block 0\n\
        \x20 1:5 enter b0\n\
        \x20 1:20 t0 = &b0+0\n\
        \x20 1:22 t1 = 1 s32\n\
        \x20 1:20 store t0 = t1 s32\n\
        \x20 1:5 jump\n\
        \x20 -> 1\n\
        block 1\n\
        \x20 1:27 t0 = &b0+0\n\
        \x20 1:27 t0 = load t0 s32\n\
        \x20 1:27 branch t0 s32\n\
        \x20 -> 2 true test b0 != 0 in s32\n\
        \x20 -> 3 false test b0 == 0 in s32\n\
        block 2\n\
        \x20 1:29 t0 = &b0+0\n\
        \x20 1:31 t1 = 2 s32\n\
        \x20 1:29 store t0 = t1 s32\n\
        \x20 1:5 jump\n\
        \x20 -> 3\n\
        block 3\n\
        \x20 1:40 t0 = &b0+0\n\
        \x20 1:40 t0 = load t0 s32\n\
        \x20 1:5 leave b0\n\
        \x20 1:33 stop\n\
        block 4\n\
        \x20 1:5 leave b0\n\
        \x20 1:5 stop\n\
    ";
    dumps_to(&rt, rt.alloc(), unit, wanted)
}

// if and else; a declaration without initializer; a constant alone is no test.
#[test]
fn two_way_selection(rt: HostRuntime) -> Result<(), Fail> {
    let unit = "\
        int main(void){int a;if(1)a=2;else a=3;return 0;}\n\
    ";
    let wanted = "\
        temps 2, width 3\n\
        base 0 automatic size 4 first 0: sint@0\n\
        block 0\n\
        \x20 1:5 enter b0\n\
        \x20 1:20 forget b0\n\
        \x20 1:5 jump\n\
        \x20 -> 1\n\
        block 1\n\
        \x20 1:25 t0 = 1 s32\n\
        \x20 1:25 branch t0 s32\n\
        \x20 -> 2 true\n\
        \x20 -> 3 false\n\
        block 2\n\
        \x20 1:27 t0 = &b0+0\n\
        \x20 1:29 t1 = 2 s32\n\
        \x20 1:27 store t0 = t1 s32\n\
        \x20 1:5 jump\n\
        \x20 -> 4\n\
        block 3\n\
        \x20 1:36 t0 = &b0+0\n\
        \x20 1:38 t1 = 3 s32\n\
        \x20 1:36 store t0 = t1 s32\n\
        \x20 1:5 jump\n\
        \x20 -> 4\n\
        block 4\n\
        \x20 1:47 t0 = 0 s32\n\
        \x20 1:5 leave b0\n\
        \x20 1:40 stop\n\
        block 5\n\
        \x20 1:5 leave b0\n\
        \x20 1:5 stop\n\
    ";
    dumps_to(&rt, rt.alloc(), unit, wanted)
}

// switch: an edge for each case in reading order, and one for all other values. The edge that
// enters a block with an object goes to a block of its own; falling from one case into the next
// enters nothing.
#[test]
fn switch_statement(rt: HostRuntime) -> Result<(), Fail> {
    let unit = "\
        int main(void){int x=2;switch(x){case 1:{int y;case 2:y=3;}break;default:x=0;}return x;}\n\
    ";
    let wanted = "\
        temps 2, width 4\n\
        base 0 automatic size 4 first 0: sint@0\n\
        base 1 automatic size 4 first 1: sint@0\n\
        block 0\n\
        \x20 1:5 enter b0\n\
        \x20 1:20 t0 = &b0+0\n\
        \x20 1:22 t1 = 2 s32\n\
        \x20 1:20 store t0 = t1 s32\n\
        \x20 1:31 t0 = &b0+0\n\
        \x20 1:31 t0 = load t0 s32\n\
        \x20 1:24 switch t0 s32\n\
        \x20 -> 2 case 1 of b0\n\
        \x20 -> 1 case 2 of b0\n\
        \x20 -> 4 other\n\
        block 1\n\
        \x20 1:5 enter b1\n\
        \x20 1:5 jump\n\
        \x20 -> 3\n\
        block 2\n\
        \x20 1:5 enter b1\n\
        \x20 1:46 forget b1\n\
        \x20 1:5 jump\n\
        \x20 -> 3\n\
        block 3\n\
        \x20 1:55 t0 = &b1+0\n\
        \x20 1:57 t1 = 3 s32\n\
        \x20 1:55 store t0 = t1 s32\n\
        \x20 1:5 leave b1\n\
        \x20 1:5 jump\n\
        \x20 -> 5\n\
        block 4\n\
        \x20 1:74 t0 = &b0+0\n\
        \x20 1:76 t1 = 0 s32\n\
        \x20 1:74 store t0 = t1 s32\n\
        \x20 1:5 jump\n\
        \x20 -> 5\n\
        block 5\n\
        \x20 1:86 t0 = &b0+0\n\
        \x20 1:86 t0 = load t0 s32\n\
        \x20 1:5 leave b0\n\
        \x20 1:79 stop\n\
        block 6\n\
        \x20 1:5 leave b0\n\
        \x20 1:5 stop\n\
    ";
    dumps_to(&rt, rt.alloc(), unit, wanted)
}

// A labelled statement begins a block; a goto leaves what is left on its way.
#[test]
fn labels(rt: HostRuntime) -> Result<(), Fail> {
    let unit = "\
        int main(void){int a=0;again:{int b=1;if(a)goto out;a=b;goto again;}out:return a;}\n\
    ";
    let wanted = "\
        temps 2, width 4\n\
        base 0 automatic size 4 first 0: sint@0\n\
        base 1 automatic size 4 first 1: sint@0\n\
        block 0\n\
        \x20 1:5 enter b0\n\
        \x20 1:20 t0 = &b0+0\n\
        \x20 1:22 t1 = 0 s32\n\
        \x20 1:20 store t0 = t1 s32\n\
        \x20 1:5 jump\n\
        \x20 -> 1\n\
        block 1 head\n\
        \x20 1:5 enter b1\n\
        \x20 1:35 t0 = &b1+0\n\
        \x20 1:37 t1 = 1 s32\n\
        \x20 1:35 store t0 = t1 s32\n\
        \x20 1:5 jump\n\
        \x20 -> 2\n\
        block 2\n\
        \x20 1:42 t0 = &b0+0\n\
        \x20 1:42 t0 = load t0 s32\n\
        \x20 1:42 branch t0 s32\n\
        \x20 -> 3 true test b0 != 0 in s32\n\
        \x20 -> 4 false test b0 == 0 in s32\n\
        block 3\n\
        \x20 1:5 leave b1\n\
        \x20 1:5 jump\n\
        \x20 -> 6\n\
        block 4\n\
        \x20 1:53 t0 = &b0+0\n\
        \x20 1:55 t1 = &b1+0\n\
        \x20 1:55 t1 = load t1 s32\n\
        \x20 1:53 store t0 = t1 s32\n\
        \x20 1:5 leave b1\n\
        \x20 1:5 jump\n\
        \x20 -> 1\n\
        block 5\n\
        \x20 1:5 leave b1\n\
        \x20 1:5 jump\n\
        \x20 -> 6\n\
        block 6\n\
        \x20 1:80 t0 = &b0+0\n\
        \x20 1:80 t0 = load t0 s32\n\
        \x20 1:5 leave b0\n\
        \x20 1:73 stop\n\
        block 7\n\
        \x20 1:5 leave b0\n\
        \x20 1:5 stop\n\
    ";
    dumps_to(&rt, rt.alloc(), unit, wanted)
}
