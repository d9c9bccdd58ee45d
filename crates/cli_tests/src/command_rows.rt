//! Words, models and formats.
use crate::call::{Call, answer_all};
use std::test::Fail;

const COMMANDS: [Call; 5] = [
    (&[], "check a.c", 4, "ccheck: no file a.c\n"),
    (
        &[("a.c", "int main(void){return 0;}")],
        "lint a.c",
        3,
        "ccheck: words refused\n",
    ),
    (
        &[("a.c", "int main(void){return 0;}"), ("m.toml", "")],
        "check a.c --model m.toml",
        3,
        "ccheck: m.toml: ModelShape\n",
    ),
    (
        &[
            ("a.c", "int main(void){return 0;}"),
            (
                "m.toml",
                "short = 2\nint = 2\nlong = 4\nlong_long = 8\npointer = 2\nchar_signed = true\n",
            ),
        ],
        "check a.c --model m.toml",
        3,
        "ccheck: m.toml: ModelValue pointer\n",
    ),
    (
        &[("a.c", "int main(void){int a=1;int b=0;return a/b;}")],
        "check a.c --format json",
        1,
        "{\"diagnostics\":[{\"column\":40,\"file\":\"a.c\",\"line\":1,\"rule\":\"diverr\",\"text\":\"division is undefined\"}],\"unit\":\"a.c\"}\n",
    ),
];

#[test]
fn words_models_and_formats(rt: HostRuntime) -> Result<(), Fail> {
    answer_all(&rt, rt.alloc(), &COMMANDS)
}
