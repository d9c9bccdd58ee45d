//! Where a line stands after a token.
ghost use Rattle.std.specs.Prelude.{◌≡◌};
ghost use Rattle.c_lexer.specs.Cutting.{after_start, after_hash, context_after};

use crate::pieces::Context;
use cc_base::Kind;

/// Where a line stands after a token of this kind and text.
pub fn context_after(context: Context, kind: Kind, text: &[u8]) -> Context
    ensures { result ≡ context_after context kind text.now }
{
    match context {
        Context::LineStart => after_start(kind, text),
        Context::AfterHash => after_hash(kind, text),
        _ => Context::Plain,
    }
}

fn after_start(kind: Kind, text: &[u8]) -> Context
    ensures { result ≡ after_start kind text.now }
{
    match kind {
        Kind::Punct => {
            if text == b"#".as_slice() {
                Context::AfterHash
            } else {
                Context::Plain
            }
        }
        _ => Context::Plain,
    }
}

fn after_hash(kind: Kind, text: &[u8]) -> Context
    ensures { result ≡ after_hash kind text.now }
{
    match kind {
        Kind::Name => {
            if text == b"include".as_slice() {
                Context::AfterInclude
            } else {
                Context::Plain
            }
        }
        _ => Context::Plain,
    }
}
