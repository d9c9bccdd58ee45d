//! The rules on the text of a unit.
use crate::call::{Unit, check_all};
use std::test::Fail;

const CONDITIONS: [Unit; 4] = [
    (
        "int main(void){int a=0;int b=1;if(a=b)a=0;if((a=b))a=0;if((a=b)!=0)a=0;return a;}",
        1,
        "a.c:1:36: boolasgn: assignment stands as a condition\n1 diagnostics in a.c\n",
    ),
    (
        "int main(void){int *p=0;switch(1){case 1:break;}return sizeof p;}",
        1,
        "a.c:1:25: swtchdflt: switch has no default\na.c:1:56: sizeofptr: sizeof is taken of a pointer\n2 diagnostics in a.c\n",
    ),
    (
        "int main(void){int a=0;int b=1;while(a=b)a=0;return (a=b)?a:(b=a);}",
        1,
        "a.c:1:39: boolasgn: assignment stands as a condition\na.c:1:55: boolasgn: assignment stands as a condition\n2 diagnostics in a.c\n",
    ),
    (
        "int main(void){int a=0;int b=1;while(a=b)a=0;return(a=b,b=a)?1:2;}",
        1,
        "a.c:1:39: boolasgn: assignment stands as a condition\na.c:1:58: boolasgn: assignment stands as a condition\n2 diagnostics in a.c\n",
    ),
];

#[test]
fn assignments_switches_and_sizes(rt: HostRuntime) -> Result<(), Fail> {
    check_all(&rt, rt.alloc(), &CONDITIONS)
}

const SIZES: [Unit; 1] = [(
    "int *p;\nint a[sizeof p];\nenum e {A = sizeof p};\nstatic unsigned long q = sizeof p;\nstruct s {int z[sizeof p];};\nint main(void){switch(A){case sizeof p: default:;}return 0;}\n",
    1,
    "a.c:2:7: sizeofptr: sizeof is taken of a pointer\na.c:3:13: sizeofptr: sizeof is taken of a pointer\na.c:4:26: sizeofptr: sizeof is taken of a pointer\na.c:5:17: sizeofptr: sizeof is taken of a pointer\na.c:6:31: sizeofptr: sizeof is taken of a pointer\n5 diagnostics in a.c\n",
)];

#[test]
fn sizes_that_no_run_evaluates(rt: HostRuntime) -> Result<(), Fail> {
    check_all(&rt, rt.alloc(), &SIZES)
}
