//! For each rule units that break it, and one that does not.
use crate::call::{Unit, check_all};
use std::test::Fail;

const ACCFREE: [Unit; 5] = [
    (
        "#include <stdlib.h>\nint main(void){char*p=malloc(4);char*q;free(p);q=p;return q==NULL;}",
        1,
        "a.c:2:50: accfree: freed memory is used\na.c:2:59: accfree: freed memory is used\n2 diagnostics in a.c\n",
    ),
    (
        "#include <stdlib.h>\nint main(void){char*p=malloc(4);if(p==NULL)return 1;free(p);*p=1;return 0;}",
        1,
        "a.c:2:61: accfree: freed memory is used\na.c:2:62: accfree: freed memory is used\n2 diagnostics in a.c\n",
    ),
    (
        "#include <stdlib.h>\n#include <string.h>\nint main(void){char*p=calloc(4,1);if(p==NULL)return 1;free(p);return (int)strlen(p);}",
        1,
        "a.c:3:75: accfree: freed memory is used\na.c:3:82: accfree: freed memory is used\n2 diagnostics in a.c\n",
    ),
    (
        "#include <stdlib.h>\nstruct n{int k;struct n*next;};int main(void){struct n*p=malloc(sizeof(struct n));if(p==NULL)return 1;p->k=1;free(p);return p->k;}",
        1,
        "a.c:2:125: accfree: freed memory is used\na.c:2:126: accfree: freed memory is used\n2 diagnostics in a.c\n",
    ),
    (
        "#include <stdlib.h>\nint main(void){char*p=malloc(4);if(p==NULL)return 1;*p=1;free(p);p=NULL;return 0;}",
        0,
        "0 diagnostics in a.c\n",
    ),
];

#[test]
fn accfree(rt: HostRuntime) -> Result<(), Fail> {
    check_all(&rt, rt.alloc(), &ACCFREE)
}

const BOOLASGN: [Unit; 2] = [
    (
        "int main(void){int a=0;int b=1;if(a=b)return 1;return 0;}",
        1,
        "a.c:1:36: boolasgn: assignment stands as a condition\n1 diagnostics in a.c\n",
    ),
    (
        "int main(void){int a=0;int b=1;if((a=b))return 1;return 0;}",
        0,
        "0 diagnostics in a.c\n",
    ),
];

#[test]
fn boolasgn(rt: HostRuntime) -> Result<(), Fail> {
    check_all(&rt, rt.alloc(), &BOOLASGN)
}

const CHRSGNEXT: [Unit; 6] = [
    (
        "#include <ctype.h>\n#include <stdio.h>\nint main(void){char c=(char)getchar();return isdigit(c);}",
        1,
        "a.c:3:46: chrsgnext: character argument is out of range\n1 diagnostics in a.c\n",
    ),
    (
        "#include <ctype.h>\nint main(void){return toupper(256);}",
        1,
        "a.c:2:23: chrsgnext: character argument is out of range\n1 diagnostics in a.c\n",
    ),
    (
        "#include <ctype.h>\nint main(void){int c=-2;return isspace(c);}",
        1,
        "a.c:2:32: chrsgnext: character argument is out of range\n1 diagnostics in a.c\n",
    ),
    (
        "#include <ctype.h>\n#include <stdio.h>\nint main(void){int c=getchar();return isalpha(c*2);}",
        1,
        "a.c:3:39: chrsgnext: character argument is out of range\n1 diagnostics in a.c\n",
    ),
    (
        "#include <ctype.h>\n#include <stdio.h>\nint main(void){int c=getchar();return isalpha(c);}",
        0,
        "0 diagnostics in a.c\n",
    ),
    (
        "#include <ctype.h>\nint main(void){char c=-56;return isalpha((unsigned char)c);}",
        0,
        "0 diagnostics in a.c\n",
    ),
];

#[test]
fn chrsgnext(rt: HostRuntime) -> Result<(), Fail> {
    check_all(&rt, rt.alloc(), &CHRSGNEXT)
}

const DBLFREE: [Unit; 5] = [
    (
        "#include <stdlib.h>\nint main(void){char*p=malloc(4);free(p);free(p);return 0;}",
        1,
        "a.c:2:41: dblfree: memory is freed twice\na.c:2:46: accfree: freed memory is used\n2 diagnostics in a.c\n",
    ),
    (
        "#include <stdlib.h>\n#include <stdio.h>\nint main(void){char*p=malloc(4);if(getchar()==1)free(p);free(p);return 0;}",
        1,
        "a.c:3:57: dblfree: memory is freed twice\na.c:3:62: accfree: freed memory is used\n2 diagnostics in a.c\n",
    ),
    (
        "#include <stdlib.h>\nint main(void){char*p=malloc(4);free(p);p=realloc(p,8);free(p);return 0;}",
        1,
        "a.c:2:43: dblfree: memory is freed twice\na.c:2:51: accfree: freed memory is used\n2 diagnostics in a.c\n",
    ),
    (
        "#include <stdlib.h>\nint main(void){int i;char*p=malloc(4);for(i=0;i<2;i++)free(p);return 0;}",
        1,
        "a.c:2:55: dblfree: memory is freed twice\na.c:2:60: accfree: freed memory is used\n2 diagnostics in a.c\n",
    ),
    (
        "#include <stdlib.h>\nint main(void){char*p=malloc(4);free(p);p=NULL;free(p);return 0;}",
        0,
        "0 diagnostics in a.c\n",
    ),
];

#[test]
fn dblfree(rt: HostRuntime) -> Result<(), Fail> {
    check_all(&rt, rt.alloc(), &DBLFREE)
}

const DIVERR: [Unit; 2] = [
    (
        "#include <stdio.h>\nint main(void){return 100/getchar();}",
        1,
        "a.c:2:26: diverr: division is undefined\n1 diagnostics in a.c\n",
    ),
    (
        "#include <stdio.h>\nint main(void){int n=getchar();if(n>0)return 100/n;return 0;}",
        0,
        "0 diagnostics in a.c\n",
    ),
];

#[test]
fn diverr(rt: HostRuntime) -> Result<(), Fail> {
    check_all(&rt, rt.alloc(), &DIVERR)
}

const INSUFMEM: [Unit; 5] = [
    (
        "#include <stdlib.h>\nint main(void){long*q=malloc(4);free(q);return 0;}",
        1,
        "a.c:2:23: insufmem: allocation is too small for its type\n1 diagnostics in a.c\n",
    ),
    (
        "#include <stdlib.h>\nint main(void){int*q=malloc(3);free(q);return 0;}",
        1,
        "a.c:2:22: insufmem: allocation is too small for its type\n1 diagnostics in a.c\n",
    ),
    (
        "#include <stdlib.h>\nstruct p{int x;int y;};int main(void){struct p*q=malloc(sizeof(int));free(q);return 0;}",
        1,
        "a.c:2:50: insufmem: allocation is too small for its type\n1 diagnostics in a.c\n",
    ),
    (
        "#include <stdlib.h>\nint main(void){short*q=calloc(1,1);free(q);return 0;}",
        1,
        "a.c:2:24: insufmem: allocation is too small for its type\n1 diagnostics in a.c\n",
    ),
    (
        "#include <stdlib.h>\nint main(void){long*q=malloc(sizeof *q);free(q);return 0;}",
        0,
        "0 diagnostics in a.c\n",
    ),
];

#[test]
fn insufmem(rt: HostRuntime) -> Result<(), Fail> {
    check_all(&rt, rt.alloc(), &INSUFMEM)
}

const INTOFLOW: [Unit; 2] = [
    (
        "int main(void){int a=2147483647;return a+1;}",
        1,
        "a.c:1:41: intoflow: signed result is out of range\n1 diagnostics in a.c\n",
    ),
    (
        "int main(void){unsigned a=2147483647u;return a+1u>0u;}",
        0,
        "0 diagnostics in a.c\n",
    ),
];

#[test]
fn intoflow(rt: HostRuntime) -> Result<(), Fail> {
    check_all(&rt, rt.alloc(), &INTOFLOW)
}

const INVPTR: [Unit; 2] = [
    (
        "int main(void){int a[10];int i;for(i=0;i<=10;i++)a[i]=i;return 0;}",
        1,
        "a.c:1:51: invptr: pointer is out of bounds\n1 diagnostics in a.c\n",
    ),
    (
        "int main(void){int a[10];int i;for(i=0;i<10;i++)a[i]=i;return 0;}",
        0,
        "0 diagnostics in a.c\n",
    ),
];

#[test]
fn invptr(rt: HostRuntime) -> Result<(), Fail> {
    check_all(&rt, rt.alloc(), &INVPTR)
}

const LIBPTR: [Unit; 2] = [
    (
        "#include <string.h>\nint main(void){char d[4];strcpy(d,\"abcd\");return 0;}",
        1,
        "a.c:2:26: libptr: library call passes the end of an object\n1 diagnostics in a.c\n",
    ),
    (
        "#include <string.h>\nint main(void){char d[5];strcpy(d,\"abcd\");return 0;}",
        0,
        "0 diagnostics in a.c\n",
    ),
];

#[test]
fn libptr(rt: HostRuntime) -> Result<(), Fail> {
    check_all(&rt, rt.alloc(), &LIBPTR)
}

const NONNULLCS: [Unit; 2] = [
    (
        "#include <string.h>\nint main(void){char d[4];return (int)strlen(d);}",
        1,
        "a.c:2:38: nonnullcs: string has no terminating zero\n1 diagnostics in a.c\n",
    ),
    (
        "#include <string.h>\nint main(void){char d[4]=\"abc\";return (int)strlen(d);}",
        0,
        "0 diagnostics in a.c\n",
    ),
];

#[test]
fn nonnullcs(rt: HostRuntime) -> Result<(), Fail> {
    check_all(&rt, rt.alloc(), &NONNULLCS)
}

const NULLREF: [Unit; 2] = [
    (
        "#include <stdlib.h>\nint main(void){int*p=malloc(4);*p=1;free(p);return 0;}",
        1,
        "a.c:2:32: nullref: null or ended pointer is dereferenced\n1 diagnostics in a.c\n",
    ),
    (
        "#include <stdlib.h>\nint main(void){int*p=malloc(4);if(p!=NULL)*p=1;free(p);return 0;}",
        0,
        "0 diagnostics in a.c\n",
    ),
];

#[test]
fn nullref(rt: HostRuntime) -> Result<(), Fail> {
    check_all(&rt, rt.alloc(), &NULLREF)
}

const PTROBJ: [Unit; 5] = [
    (
        "int main(void){int a[2];int b[2];return &a[0]<&b[0];}",
        1,
        "a.c:1:46: ptrobj: pointers into different objects\n1 diagnostics in a.c\n",
    ),
    (
        "int main(void){int a[2];int b[2];int*p=a;int*q=b;return (int)(p-q);}",
        1,
        "a.c:1:64: ptrobj: pointers into different objects\n1 diagnostics in a.c\n",
    ),
    (
        "#include <stdio.h>\nint main(void){int a[2];int b[2];int*p=a;if(getchar()==1)p=b;return p>=&a[1];}",
        1,
        "a.c:2:70: ptrobj: pointers into different objects\n1 diagnostics in a.c\n",
    ),
    (
        "#include <stdlib.h>\nint main(void){char*p=malloc(4);char*q=malloc(4);int r=0;if(p!=NULL&&q!=NULL)r=p<q;free(p);free(q);return r;}",
        1,
        "a.c:2:81: ptrobj: pointers into different objects\n1 diagnostics in a.c\n",
    ),
    (
        "int main(void){int a[2];return &a[0]<&a[1];}",
        0,
        "0 diagnostics in a.c\n",
    ),
];

#[test]
fn ptrobj(rt: HostRuntime) -> Result<(), Fail> {
    check_all(&rt, rt.alloc(), &PTROBJ)
}

const SIZEOFPTR: [Unit; 2] = [
    (
        "#include <string.h>\nvoid f(char s[80]){memset(s,0,sizeof s);}int main(void){char t[80];f(t);return t[0];}",
        1,
        "a.c:2:31: sizeofptr: sizeof is taken of a pointer\n1 diagnostics in a.c\n",
    ),
    (
        "#include <string.h>\nvoid f(char*s){memset(s,0,sizeof(char*));}int main(void){char t[80];f(t);return t[0];}",
        0,
        "0 diagnostics in a.c\n",
    ),
];

#[test]
fn sizeofptr(rt: HostRuntime) -> Result<(), Fail> {
    check_all(&rt, rt.alloc(), &SIZEOFPTR)
}

const STRMOD: [Unit; 5] = [
    (
        "int main(void){char*s=\"abc\";s[0]='x';return 0;}",
        1,
        "a.c:1:30: strmod: string literal is modified\n1 diagnostics in a.c\n",
    ),
    (
        "#include <string.h>\nint main(void){char*s=\"abcd\";strcpy(s,\"xy\");return 0;}",
        1,
        "a.c:2:30: strmod: string literal is modified\n1 diagnostics in a.c\n",
    ),
    (
        "#include <stdio.h>\nint main(void){char a[4];char*s=a;if(getchar()==1)s=\"abc\";*s=0;return 0;}",
        1,
        "a.c:2:59: strmod: string literal is modified\n1 diagnostics in a.c\n",
    ),
    (
        "#include <string.h>\nint main(void){memset(\"abc\",0,2);return 0;}",
        1,
        "a.c:2:16: strmod: string literal is modified\n1 diagnostics in a.c\n",
    ),
    (
        "int main(void){char s[]=\"abc\";s[0]='x';return 0;}",
        0,
        "0 diagnostics in a.c\n",
    ),
];

#[test]
fn strmod(rt: HostRuntime) -> Result<(), Fail> {
    check_all(&rt, rt.alloc(), &STRMOD)
}

const SWTCHDFLT: [Unit; 6] = [
    (
        "#include <stdio.h>\nint main(void){switch(getchar()){case 1:return 1;}return 0;}",
        1,
        "a.c:2:16: swtchdflt: switch has no default\n1 diagnostics in a.c\n",
    ),
    (
        "#include <stdio.h>\nint main(void){int n=getchar();switch(n){case 1:case 2:return 1;case 3:return 2;}return 0;}",
        1,
        "a.c:2:32: swtchdflt: switch has no default\n1 diagnostics in a.c\n",
    ),
    (
        "enum e{A,B,C};int main(void){enum e x=A;switch(x){case A:return 1;case B:return 2;}return 0;}",
        1,
        "a.c:1:41: swtchdflt: switch has no default\n1 diagnostics in a.c\n",
    ),
    (
        "int main(void){int n=1;switch(n){case 1:switch(n){default:return 3;}}return 0;}",
        1,
        "a.c:1:24: swtchdflt: switch has no default\n1 diagnostics in a.c\n",
    ),
    (
        "enum e{A,B};int main(void){enum e x=A;switch(x){case A:return 1;case B:return 2;}return 0;}",
        0,
        "0 diagnostics in a.c\n",
    ),
    (
        "#include <stdio.h>\nint main(void){switch(getchar()){case 1:return 1;default:;}return 0;}",
        0,
        "0 diagnostics in a.c\n",
    ),
];

#[test]
fn swtchdflt(rt: HostRuntime) -> Result<(), Fail> {
    check_all(&rt, rt.alloc(), &SWTCHDFLT)
}

const TAINTSINK: [Unit; 2] = [
    (
        "#include <stdio.h>\nint main(void){int t[256]={0};return t[getchar()];}",
        1,
        "a.c:2:39: invptr: pointer is out of bounds\na.c:2:39: taintsink: tainted value reaches a sink\n2 diagnostics in a.c\n",
    ),
    (
        "#include <stdio.h>\nint main(void){int t[10]={0};int i=getchar();if(0<=i&&i<10)return t[i];return 0;}",
        0,
        "0 diagnostics in a.c\n",
    ),
];

#[test]
fn taintsink(rt: HostRuntime) -> Result<(), Fail> {
    check_all(&rt, rt.alloc(), &TAINTSINK)
}

const UNINITREF: [Unit; 6] = [
    (
        "int main(void){int x;return x;}",
        1,
        "a.c:1:29: uninitref: uninitialized memory is read\n1 diagnostics in a.c\n",
    ),
    (
        "int main(void){int a[4];a[0]=1;return a[1];}",
        1,
        "a.c:1:40: uninitref: uninitialized memory is read\n1 diagnostics in a.c\n",
    ),
    (
        "#include <stdio.h>\nint main(void){int x;if(getchar()==1)x=2;return x;}",
        1,
        "a.c:2:49: uninitref: uninitialized memory is read\n1 diagnostics in a.c\n",
    ),
    (
        "#include <stdlib.h>\nint main(void){int*p=malloc(sizeof(int));int r=0;if(p!=NULL)r=*p;free(p);return r;}",
        1,
        "a.c:2:63: uninitref: uninitialized memory is read\n1 diagnostics in a.c\n",
    ),
    (
        "struct s{int a;int b;};int main(void){struct s x;x.a=1;return x.b;}",
        1,
        "a.c:1:64: uninitref: uninitialized memory is read\n1 diagnostics in a.c\n",
    ),
    (
        "int main(void){int x=0;return x;}",
        0,
        "0 diagnostics in a.c\n",
    ),
];

#[test]
fn uninitref(rt: HostRuntime) -> Result<(), Fail> {
    check_all(&rt, rt.alloc(), &UNINITREF)
}

const XFREE: [Unit; 5] = [
    (
        "#include <stdlib.h>\nint main(void){int a[2];free(a);return 0;}",
        1,
        "a.c:2:25: xfree: memory was not allocated\n1 diagnostics in a.c\n",
    ),
    (
        "#include <stdlib.h>\nint main(void){char*p=malloc(4);if(p!=NULL)free(p+1);return 0;}",
        1,
        "a.c:2:44: xfree: memory was not allocated\n1 diagnostics in a.c\n",
    ),
    (
        "#include <stdlib.h>\nstatic int g;int main(void){int*p=&g;p=realloc(p,8);return p==NULL;}",
        1,
        "a.c:2:40: xfree: memory was not allocated\n1 diagnostics in a.c\n",
    ),
    (
        "#include <stdlib.h>\nint main(void){char*s=\"abc\";free(s);return 0;}",
        1,
        "a.c:2:29: xfree: memory was not allocated\n1 diagnostics in a.c\n",
    ),
    (
        "#include <stdlib.h>\nint main(void){char*p=malloc(4);free(p);return 0;}",
        0,
        "0 diagnostics in a.c\n",
    ),
];

#[test]
fn xfree(rt: HostRuntime) -> Result<(), Fail> {
    check_all(&rt, rt.alloc(), &XFREE)
}
