//! Units that typing refuses, each at its place, and units that it accepts.
use crate::call::{check, checked};
use std::alloc::Global;
use std::process::Abort;
use std::test::Fail;

/// Fails unless each unit is refused with its line.
fn refuse_all(rt: &impl Abort, alloc: Global, rows: &[(&str, &str)]) -> Result<(), Fail> {
    for (source, line) in rows {
        check(rt, alloc, source, 2, line)?;
    }
    Ok(())
}

/// Fails unless each unit is analysed.
fn accept_all(rt: &impl Abort, alloc: Global, sources: &[&str]) -> Result<(), Fail> {
    for source in sources {
        assert!(rt; checked(alloc, source)?.status < 2, "{source}");
    }
    Ok(())
}

const UNDECLARED: [(&str, &str); 8] = [
    (
        "int main(void){return y;}",
        "a.c:1:23: refused: Undeclared\n",
    ),
    (
        "int main(void){return f();}",
        "a.c:1:23: refused: Undeclared\n",
    ),
    (
        "extern int x;int main(void){return x;}",
        "a.c:1:36: refused: Undeclared\n",
    ),
    (
        "int main(void){goto l;return 0;}",
        "a.c:1:16: refused: Undeclared\n",
    ),
    (
        "struct s{int a;}x;int main(void){return x.b;}",
        "a.c:1:42: refused: Undeclared\n",
    ),
    (
        "int main(void){int a[n];return 0;}",
        "a.c:1:22: refused: Undeclared\n",
    ),
    (
        "int main(void){int *p=0;switch(p){default:y;}return 0;}",
        "a.c:1:43: refused: Undeclared\n",
    ),
    (
        "int main(void){int i=1;unsigned u=1;long l=1;long long L=1;unsigned long z=1;char *s=\"\";char c=1;short h=1;printf(y);return 0;}",
        "a.c:1:115: refused: Undeclared\n",
    ),
];

const REDECLARED: [(&str, &str); 8] = [
    (
        "int x=1;int x=2;int main(void){return 0;}",
        "a.c:1:13: refused: Redeclared\n",
    ),
    (
        "int f;int f(void){return 1;}int main(void){return 0;}",
        "a.c:1:11: refused: Redeclared\n",
    ),
    (
        "int f(int x);int f(long x){return 1;}int main(void){return 0;}",
        "a.c:1:18: refused: Redeclared\n",
    ),
    (
        "extern long x;extern long long x;int main(void){return 0;}",
        "a.c:1:32: refused: Redeclared\n",
    ),
    (
        "int getchar(void);int main(void){return 0;}",
        "a.c:1:5: refused: Redeclared\n",
    ),
    (
        "int main(void){int x,x;return 0;}",
        "a.c:1:22: refused: Redeclared\n",
    ),
    (
        "struct s{int a;int a;};int main(void){return 0;}",
        "a.c:1:20: refused: Redeclared\n",
    ),
    (
        "enum e{A};enum f{A};int main(void){return 0;}",
        "a.c:1:18: refused: Redeclared\n",
    ),
];

const TYPE_FAULTS: [(&str, &str); 20] = [
    (
        "int main(void){return (int)sizeof(typedef int);}",
        "a.c:1:28: refused: TypeFault\n",
    ),
    (
        "int main(void){return (int)sizeof(extern int);}",
        "a.c:1:28: refused: TypeFault\n",
    ),
    (
        "struct s{static int x;};int main(void){return 0;}",
        "a.c:1:21: refused: TypeFault\n",
    ),
    (
        "static int f(extern int x){return x;}int main(void){return f(1);}",
        "a.c:1:25: refused: TypeFault\n",
    ),
    (
        "struct b{char x[1073741824];};static struct b a[]={{{1}},{{2}}};int main(void){return 0;}",
        "a.c:1:50: refused: TypeFault\n",
    ),
    (
        "struct b{char x[1073741824];};int main(void){static struct b a[]={{{1}},{{2}}};return 0;}",
        "a.c:1:65: refused: TypeFault\n",
    ),
    (
        "struct b{char x[1073741824];};int main(void){struct b a[]={{{1}},{{2}}};return 0;}",
        "a.c:1:58: refused: TypeFault\n",
    ),
    (
        "int main(void){int free=1;free(0);return 0;}",
        "a.c:1:27: refused: TypeFault\n",
    ),
    (
        "void x[3];int main(void){return 0;}",
        "a.c:1:6: refused: TypeFault\n",
    ),
    (
        "int main(void){return sizeof(int[1073741824]);}",
        "a.c:1:23: refused: TypeFault\n",
    ),
    (
        "int main(void){return (static int)1;}",
        "a.c:1:23: refused: TypeFault\n",
    ),
    (
        "int main(void){switch(1){default:continue;}}",
        "a.c:1:34: refused: TypeFault\n",
    ),
    (
        "void f(void){return 1;}int main(void){return 0;}",
        "a.c:1:14: refused: TypeFault\n",
    ),
    (
        "int f(int*x){return 1;}int main(void){long y;return f(&y);}",
        "a.c:1:53: refused: TypeFault\n",
    ),
    (
        "int main(void){int *p=0;return p<0;}",
        "a.c:1:33: refused: TypeFault\n",
    ),
    (
        "int main(void){void *p=0;p++;return 0;}",
        "a.c:1:27: refused: TypeFault\n",
    ),
    (
        "int main(void){int a[2],b[2];a=b;return 0;}",
        "a.c:1:31: refused: TypeFault\n",
    ),
    (
        "struct s{int a;};int main(void){struct s x,y;x=1?x:y;return 0;}",
        "a.c:1:49: refused: TypeFault\n",
    ),
    (
        "int main(void){int a[3];a++;return 0;}",
        "a.c:1:26: refused: TypeFault\n",
    ),
    (
        "typedef int T=1;int main(void){return 0;}",
        "a.c:1:14: refused: TypeFault\n",
    ),
];

const POINTERS_AND_INTEGERS: [(&str, &str); 8] = [
    (
        "int main(void){int a;int *p=&a;return p;}",
        "a.c:1:32: refused: PointerInteger\n",
    ),
    (
        "int f(int*x){return 1;}int main(void){return f(5);}",
        "a.c:1:46: refused: PointerInteger\n",
    ),
    (
        "int main(void){int *p;p=5;return 0;}",
        "a.c:1:24: refused: PointerInteger\n",
    ),
    (
        "int main(void){int *p=0;int i;i=p;return 0;}",
        "a.c:1:32: refused: PointerInteger\n",
    ),
    (
        "int main(void){int *p=5;return 0;}",
        "a.c:1:22: refused: PointerInteger\n",
    ),
    (
        "int main(void){int *p=0;return (int)p;}",
        "a.c:1:32: refused: PointerInteger\n",
    ),
    (
        "int main(void){int i=0;int *p=(int*)i;return 0;}",
        "a.c:1:31: refused: PointerInteger\n",
    ),
    (
        "int main(void){int *p=0;return p==5;}",
        "a.c:1:33: refused: PointerInteger\n",
    ),
];

const CONSTANTS_NEEDED: [(&str, &str); 12] = [
    (
        "int a[0];int main(void){return 0;}",
        "a.c:1:5: refused: ConstantNeeded\n",
    ),
    (
        "int a[-1];int main(void){return 0;}",
        "a.c:1:5: refused: ConstantNeeded\n",
    ),
    (
        "int main(void){int n=3;int a[n];return 0;}",
        "a.c:1:28: refused: ConstantNeeded\n",
    ),
    (
        "int a[1/0];int main(void){return 0;}",
        "a.c:1:5: refused: ConstantNeeded\n",
    ),
    (
        "int a[2147483647+1];int main(void){return 0;}",
        "a.c:1:5: refused: ConstantNeeded\n",
    ),
    (
        "int a[(1,2)];int main(void){return 0;}",
        "a.c:1:5: refused: ConstantNeeded\n",
    ),
    (
        "enum e{A=2147483647,B};int main(void){return 0;}",
        "a.c:1:21: refused: ConstantNeeded\n",
    ),
    (
        "enum e{A=2147483648};int main(void){return 0;}",
        "a.c:1:8: refused: ConstantNeeded\n",
    ),
    (
        "extern int a[];int *p=&a[5];int a[2];int main(void){return 0;}",
        "a.c:1:22: refused: ConstantNeeded\n",
    ),
    (
        "int a[];int *p=a;int *q=a+2;int main(void){return 0;}",
        "a.c:1:24: refused: ConstantNeeded\n",
    ),
    (
        "extern int a[];int f(void){static int *p[2]={0,&a[3]};return 0;}int a[2];",
        "a.c:1:44: refused: ConstantNeeded\n",
    ),
    (
        "extern int a[];int *q;int *p=&a[5];int *q=&a[6];int a[2];int main(void){return 0;}",
        "a.c:1:29: refused: ConstantNeeded\n",
    ),
];

const FORMAT_FAULTS: [(&str, &str); 6] = [
    (
        "int main(void){int i=1;unsigned u=1;long l=1;long long L=1;unsigned long z=1;char *s=\"\";char c=1;short h=1;printf(\"%d\");return 0;}",
        "a.c:1:108: refused: FormatFault\n",
    ),
    (
        "int main(void){int i=1;unsigned u=1;long l=1;long long L=1;unsigned long z=1;char *s=\"\";char c=1;short h=1;printf(\"%ld\",i);return 0;}",
        "a.c:1:108: refused: FormatFault\n",
    ),
    (
        "int main(void){int i=1;unsigned u=1;long l=1;long long L=1;unsigned long z=1;char *s=\"\";char c=1;short h=1;printf(\"%s\",0);return 0;}",
        "a.c:1:108: refused: FormatFault\n",
    ),
    (
        "int main(void){int i=1;unsigned u=1;long l=1;long long L=1;unsigned long z=1;char *s=\"\";char c=1;short h=1;printf(\"%ls\",s);return 0;}",
        "a.c:1:108: refused: FormatFault\n",
    ),
    (
        "int main(void){int i=1;unsigned u=1;long l=1;long long L=1;unsigned long z=1;char *s=\"\";char c=1;short h=1;printf(\"%p\",s);return 0;}",
        "a.c:1:108: refused: FormatFault\n",
    ),
    (
        "int main(void){int i=1;unsigned u=1;long l=1;long long L=1;unsigned long z=1;char *s=\"\";char c=1;short h=1;printf(\"%*d\",i,i);return 0;}",
        "a.c:1:108: refused: FormatFault\n",
    ),
];

const NO_ENTRY: [(&str, &str); 5] = [
    ("", "a.c:1:1: refused: NoEntry\n"),
    ("int f(void){return 0;}", "a.c:1:1: refused: NoEntry\n"),
    ("int main;", "a.c:1:1: refused: NoEntry\n"),
    (
        "int main(int argc,char **argv){return 0;}",
        "a.c:1:1: refused: NoEntry\n",
    ),
    ("int f(int x){return f(x);}", "a.c:1:1: refused: NoEntry\n"),
];

const RECURSION: [(&str, &str); 4] = [
    (
        "int f(void);int g(void){return f();}int f(void){return g();}int main(void){return 0;}",
        "a.c:1:56: refused: Recursion\n",
    ),
    (
        "int g(int x);int f(int x){return g(x);}int g(int x){return f(x);}int main(void){return f(1);}",
        "a.c:1:60: refused: Recursion\n",
    ),
    (
        "int f(int x){return f(x);}int main(void){return 0;}",
        "a.c:1:21: refused: Recursion\n",
    ),
    (
        "int g(int x);int f(int x){return g(g(x));}int g(int x){return f(f(x));}int main(void){return 0;}",
        "a.c:1:63: refused: Recursion\n",
    ),
];

const ACCEPTED: [&str; 53] = [
    "int main(void){int a=1,b=2;return a+++b;}",
    "int x='\\377';int main(void){return 0;}",
    "int x='\\x0000041';int main(void){return 0;}",
    "unsigned long x=0u;int main(void){return 0;}",
    "unsigned long x=1L;int main(void){return 0;}",
    "unsigned long x=1ul;int main(void){return 0;}",
    "unsigned long x=1LLu;int main(void){return 0;}",
    "unsigned long x=1uLL;int main(void){return 0;}",
    "unsigned long x=0x1fULL;int main(void){return 0;}",
    "unsigned long x=017l;int main(void){return 0;}",
    "unsigned long x=18446744073709551615u;int main(void){return 0;}",
    "unsigned long x=0xffffffffffffffff;int main(void){return 0;}",
    "/**/ # /**/ define A 3 // c\nint x[A];int main(void){return 0;}",
    "long unsigned int long x;const short static int y;int main(void){return 0;}",
    "typedef int T,*P,A[sizeof(T)];int main(void){return 0;}",
    "enum e{A,B,};int a[2]={1,2,};int main(void){return 0;}",
    "int main(void){int x[3];return sizeof x[0]+sizeof(x)+sizeof(int)+sizeof(int[3])+sizeof(int*)+sizeof(int(*)[3])-1;}",
    "int main(void){return sizeof (int)-1;}",
    "int main(void){return (int)sizeof(register int)-4;}",
    "int main(void){return (auto int)1;}",
    "int main(void){int a=1;if(a)if(a)return 1;else return 2;return 0;}",
    "int main(void){int a=1;do a--;while(a);return 0;}",
    "unsigned x;signed y;long z;int main(void){return 0;}",
    "int f(void);extern int x;int main(void){return 0;}",
    "extern int x;int main(void){return sizeof x;}",
    "extern int x;int f(void);int main(void){return x+f();}int f(void){return 1;}int x=1;",
    "extern int a[];int main(void){return a[2];}int a[3];",
    "extern int a[];int *p=&a[1],*q=a+2;int a[2];int main(void){return *p;}",
    "int x;int x;int x=1;int main(void){return x;}",
    "extern char x;extern signed char x;int main(void){return 0;}",
    "int main(void){int free=1;return free;}",
    "int f(int x){{int x;}return 0;}int main(void){return 0;}",
    "int a[];int main(void){return a[0];}",
    "int a[1||1/0];int main(void){return 0;}",
    "int a[(char)257];int b[sizeof a==4?1:-1];int main(void){return 0;}",
    "char a[1073741824];int main(void){return 0;}",
    "enum e{A=5,B,C=-1,D};int a[B==6&&D==0?1:-1];int main(void){return 0;}",
    "int f(int*x){return 1;}int main(void){return f(0)+f((void*)0)+f(1-1);}",
    "int main(void){int *p=(int*)0;p=(int*)(void*)0;p=(char)0;return 0;}",
    "int main(void){int *p=0;void *q=0;return p==q&&q==p&&p!=0&&0==p&&(void*)0==p;}",
    "struct s{int a;};int main(void){struct s x,y,z;x=y=z;(x=y).a;return (x=y).a;}",
    "void f(void){}int main(void){int x=1;int *p=0;void *q=0;p=x?p:0;p=x?(void*)0:p;q=x?p:q;x?f():f();return x?1:2L;}",
    "int main(void){int a[3];return a[0]+1[a];}",
    "int main(void){int a[3];int *p=a;p+=1;p-=1;return 0;}",
    "enum{A};int main(void){return 0;}",
    "int f(register int x){return x;}int main(void){return 0;}",
    "int a[2][2]={1,2,3,4},b[2][2]={{1},{2}},c[]={1,2,3},d[sizeof c==12?1:-1];int main(void){return 0;}",
    "int main(void){int i=1;unsigned u=1;long l=1;long long L=1;unsigned long z=1;char *s=\"\";char c=1;short h=1;printf(\"%d %i\",i,h);return 0;}",
    "int main(void){int i=1;unsigned u=1;long l=1;long long L=1;unsigned long z=1;char *s=\"\";char c=1;short h=1;printf(\"%u%x%X%o\",u,u,u,u);return 0;}",
    "int main(void){int i=1;unsigned u=1;long l=1;long long L=1;unsigned long z=1;char *s=\"\";char c=1;short h=1;printf(\"%ld%lu\",l,z);return 0;}",
    "int main(void){int i=1;unsigned u=1;long l=1;long long L=1;unsigned long z=1;char *s=\"\";char c=1;short h=1;printf(\"%lld%llx\",L,L);return 0;}",
    "int main(void){int i=1;unsigned u=1;long l=1;long long L=1;unsigned long z=1;char *s=\"\";char c=1;short h=1;printf(\"%zu%zd\",z,z);return 0;}",
    "int main(void){int i=1;unsigned u=1;long l=1;long long L=1;unsigned long z=1;char *s=\"\";char c=1;short h=1;printf(\"%hd%hhd\",i,c);return 0;}",
];

#[test]
fn undeclared_names_are_refused(rt: HostRuntime) -> Result<(), Fail> {
    refuse_all(&rt, rt.alloc(), &UNDECLARED)
}

#[test]
fn second_declarations_are_refused(rt: HostRuntime) -> Result<(), Fail> {
    refuse_all(&rt, rt.alloc(), &REDECLARED)
}

#[test]
fn type_faults_are_refused(rt: HostRuntime) -> Result<(), Fail> {
    refuse_all(&rt, rt.alloc(), &TYPE_FAULTS)
}

#[test]
fn pointers_and_integers_are_refused(rt: HostRuntime) -> Result<(), Fail> {
    refuse_all(&rt, rt.alloc(), &POINTERS_AND_INTEGERS)
}

#[test]
fn constants_needed_are_refused(rt: HostRuntime) -> Result<(), Fail> {
    refuse_all(&rt, rt.alloc(), &CONSTANTS_NEEDED)
}

#[test]
fn format_faults_are_refused(rt: HostRuntime) -> Result<(), Fail> {
    refuse_all(&rt, rt.alloc(), &FORMAT_FAULTS)
}

#[test]
fn no_entry_is_refused(rt: HostRuntime) -> Result<(), Fail> {
    refuse_all(&rt, rt.alloc(), &NO_ENTRY)
}

#[test]
fn recursion_is_refused(rt: HostRuntime) -> Result<(), Fail> {
    refuse_all(&rt, rt.alloc(), &RECURSION)
}

#[test]
fn units_are_accepted(rt: HostRuntime) -> Result<(), Fail> {
    accept_all(&rt, rt.alloc(), &ACCEPTED)
}
