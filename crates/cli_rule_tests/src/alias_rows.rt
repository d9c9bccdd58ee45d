//! String calls whose pointers may go to several arrays, and what they may read and write.
use crate::call::{Unit, check_all};
use std::test::Fail;

const ALIASES: [Unit; 9] = [
    // strncpy: in each array of its source by itself, the one that ends in time or the one that is all determinate.
    (
        "#include <stdio.h>\n#include <string.h>\nint main(void){char d[8];char a[8];char b[8]={1,1,1,1,1,1,1,1};char *p=a;a[0]=0;if(getchar()==1)p=b;strncpy(d,p,3);return 0;}",
        0,
        "0 diagnostics in a.c\n",
    ),
    // strncpy: one of the arrays has no known end and an indeterminate byte.
    (
        "#include <stdio.h>\n#include <string.h>\nint main(void){char d[8];char a[8];char b[8];char *p=a;a[0]=1;b[0]=1;b[1]=1;if(getchar()==1)p=b;strncpy(d,p,2);return 0;}",
        1,
        "a.c:3:97: nonnullcs: string has no terminating zero\n1 diagnostics in a.c\n",
    ),
    // strcat: the array whose end is known keeps a known one.
    (
        "#include <stdio.h>\n#include <string.h>\nint main(void){char a[8]=\"ab\";char b[8]={1,1,1,1,1,1,1,1};char *p=a;if(getchar()==1)p=b;strcat(p,\"y\");return (int)strlen(a);}",
        1,
        "a.c:3:89: libptr: library call passes the end of an object\na.c:3:89: nonnullcs: string has no terminating zero\n2 diagnostics in a.c\n",
    ),
    // strcat: only what there is room for is appended.
    (
        "#include <stdio.h>\n#include <string.h>\nint main(void){char d[4]=\"ab\";char s[8]=\"abcdef\";if(getchar()==1)s[0]=0;strcat(d,s);return (int)strlen(d);}",
        1,
        "a.c:3:73: libptr: library call passes the end of an object\n1 diagnostics in a.c\n",
    ),
    // strcat: what is behind the room is not read.
    (
        "#include <stdio.h>\n#include <string.h>\nint main(void){char d[4];d[0]=0;char s[8]=\"abcdef\";if(getchar()==1)s[0]=0;strcat(d,s);return 1/(d[0]-'f');}",
        1,
        "a.c:3:75: libptr: library call passes the end of an object\n1 diagnostics in a.c\n",
    ),
    // strcpy: what is behind the room is not read.
    (
        "#include <stdio.h>\n#include <string.h>\nint main(void){char d[2];char s[4]=\"abc\";if(getchar()==1)s[2]=0;if(getchar()==1)s[1]=0;strcpy(d,s);return 1/(d[0]-'c');}",
        1,
        "a.c:3:88: libptr: library call passes the end of an object\n1 diagnostics in a.c\n",
    ),
    // strcpy: one byte lies in the member where it is written.
    (
        "#include <stdio.h>\n#include <string.h>\nstruct s{char a[1];char b[1];};int main(void){struct s x={{0},{0}};char *p=x.a;if(getchar()==1)p=x.b;strcpy(p,\"\");return (int)(strlen(x.a)+strlen(x.b));}",
        0,
        "0 diagnostics in a.c\n",
    ),
    // memset: one byte lies in the member where it is written.
    (
        "#include <stdio.h>\n#include <string.h>\nstruct s{char a[2];int k;char b[4];};int main(void){struct s x={\"x\",3,\"x\"};char *p=x.a;if(getchar()==1)p=x.b;memset(p,0,1);return (int)strlen(x.b);}",
        0,
        "0 diagnostics in a.c\n",
    ),
    // strcat of an empty text behind one that may end in either member: nothing is known of both.
    (
        "#include <stdio.h>\n#include <string.h>\nstruct s{char a[2];char b[4];};struct t{char a[6];int z;};int main(void){struct s x={\"x\",\"y\"};struct t y={\"abc\",3};char *p=(char*)&x;if(getchar()==1)p=(char*)&y;strcat(p,\"\");strlen(x.a);strlen(x.b);return (int)strlen(y.a);}",
        1,
        "a.c:3:175: nonnullcs: string has no terminating zero\na.c:3:187: nonnullcs: string has no terminating zero\n2 diagnostics in a.c\n",
    ),
];

#[test]
fn string_calls_base_by_base(rt: HostRuntime) -> Result<(), Fail> {
    check_all(&rt, rt.alloc(), &ALIASES)
}
