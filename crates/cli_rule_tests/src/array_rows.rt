//! Arrays, loops and pointers to objects.
use crate::call::{NONE, Unit, check_all};
use std::test::Fail;

const ARRAYS: [Unit; 11] = [
    (
        "int main(void){int a[10];int i;for(i=0;i<10;i++)a[i]=i;return 0;}",
        0,
        NONE,
    ),
    (
        "int main(void){int a[10];int i;for(i=0;i<=10;i++)a[i]=i;return 0;}",
        1,
        "a.c:1:51: invptr: pointer is out of bounds\n1 diagnostics in a.c\n",
    ),
    (
        "struct p{int x;int y;};int main(void){struct p a[4];int i;for(i=0;i<4;i++)a[i].x=i;return 0;}",
        0,
        NONE,
    ),
    (
        "int main(void){int *p;{int x=1;p=&x;}return *p;}",
        1,
        "a.c:1:45: nullref: null or ended pointer is dereferenced\n1 diagnostics in a.c\n",
    ),
    (
        "int main(void){int y=0;int *p=&y;int i;for(i=0;i<2;i++){int x=1;if(i==1)*p=x;p=&x;}return 0;}",
        1,
        "a.c:1:73: nullref: null or ended pointer is dereferenced\n1 diagnostics in a.c\n",
    ),
    (
        "int main(void){int a[64],b[64],c[64],d[64],e[64],f[64],g[64],h[64],k[64];return 0;}",
        0,
        NONE,
    ),
    (
        "int main(void){int a[4]={0};unsigned i=0;i--;return a[i];}",
        1,
        "a.c:1:54: invptr: pointer is out of bounds\na.c:1:54: taintsink: tainted value reaches a sink\n2 diagnostics in a.c\n",
    ),
    (
        "extern int a[];int main(void){return a[2];}int a[3];",
        0,
        NONE,
    ),
    (
        "extern int a[];int main(void){return a[3];}int a[3];",
        1,
        "a.c:1:39: invptr: pointer is out of bounds\n1 diagnostics in a.c\n",
    ),
    (
        "int a[];int main(void){return a[1];}",
        1,
        "a.c:1:32: invptr: pointer is out of bounds\n1 diagnostics in a.c\n",
    ),
    // A folded leaf of characters whose places are 3 bytes apart, copied over integers: the second
    // integer has the byte of a place that is not its own.
    (
        "#include <string.h>\nstruct t{char a;char b;char c;};struct s{struct t x[65];};struct s g;int main(void){int a[64];char u;memset(a,0,sizeof a);memcpy(&g.x[2].a,&u,1);*(struct s *)a=g;return a[1];}",
        1,
        "a.c:2:171: uninitref: uninitialized memory is read\n1 diagnostics in a.c\n",
    ),
];

#[test]
fn arrays(rt: HostRuntime) -> Result<(), Fail> {
    check_all(&rt, rt.alloc(), &ARRAYS)
}
