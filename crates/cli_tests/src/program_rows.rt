//! A program of two files.
use crate::call::{Call, answer_all};
use std::test::Fail;

const UTIL: &str =
    "#ifndef UTIL_H\n#define UTIL_H\n#define LINE 256\nstruct rec { char *text; int kind; };\n#endif\n";

const MAIN: &str =
    "#include <stdio.h>\n#include <stdlib.h>\n#include <string.h>\n#include \"util.h\"\n\nstatic char *copy(const char *s)\n{\n    char *p = calloc(LINE, 1);\n    if (p == NULL)\n        exit(1);\n    strcpy(p, s);\n    return p;\n}\n\nint main(void)\n{\n    char line[LINE];\n    int hist[128] = {0};\n    int i;\n    struct rec r;\n    size_t len;\n    if (fgets(line, sizeof line, stdin) == NULL)\n        return 0;\n    r.text = copy(line);\n    len = strlen(r.text);\n    if (len > 0 && r.text[len - 1] == '\\n')\n        r.text[len - 1] = 0;\n    r.kind = line[0];\n    hist[r.kind]++;\n    for (i = 0; i < 128; i++)\n        if (hist[i] != 0)\n            printf(\"%d %d\\n\", i, hist[i]);\n    printf(\"%s %d\\n\", r.text, r.kind);\n    free(r.text);\n    return 0;\n}\n";

/// The same without the new line at its end.
const MAIN_CUT: &str =
    "#include <stdio.h>\n#include <stdlib.h>\n#include <string.h>\n#include \"util.h\"\n\nstatic char *copy(const char *s)\n{\n    char *p = calloc(LINE, 1);\n    if (p == NULL)\n        exit(1);\n    strcpy(p, s);\n    return p;\n}\n\nint main(void)\n{\n    char line[LINE];\n    int hist[128] = {0};\n    int i;\n    struct rec r;\n    size_t len;\n    if (fgets(line, sizeof line, stdin) == NULL)\n        return 0;\n    r.text = copy(line);\n    len = strlen(r.text);\n    if (len > 0 && r.text[len - 1] == '\\n')\n        r.text[len - 1] = 0;\n    r.kind = line[0];\n    hist[r.kind]++;\n    for (i = 0; i < 128; i++)\n        if (hist[i] != 0)\n            printf(\"%d %d\\n\", i, hist[i]);\n    printf(\"%s %d\\n\", r.text, r.kind);\n    free(r.text);\n    return 0;\n}";

const FOUND: &str =
    "main.c:29:9: invptr: pointer is out of bounds\nmain.c:29:9: taintsink: tainted value reaches a sink\n2 diagnostics in main.c\n";

const PROGRAMS: [Call; 2] = [
    (
        &[("util.h", UTIL), ("main.c", MAIN)],
        "check main.c",
        1,
        FOUND,
    ),
    (
        &[("util.h", UTIL), ("main.c", MAIN_CUT)],
        "check main.c",
        1,
        FOUND,
    ),
];

#[test]
fn a_program_of_two_files(rt: HostRuntime) -> Result<(), Fail> {
    answer_all(&rt, rt.alloc(), &PROGRAMS)
}
