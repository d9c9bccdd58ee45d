//! The longest punctuator at a place.
ghost use Rattle.std.specs.Prelude.{◌≡◌};
ghost use Rattle.c_lexer.specs.Punctuators.{is_single, is_doubled, is_assigned, shifted_length, punctuator_length};

fn is_single(b: u8) -> bool
    ensures { result ≡ is_single b }
{
    b == 91
        || b == 93
        || b == 40
        || b == 41
        || b == 123
        || b == 125
        || b == 126
        || b == 63
        || b == 58
        || b == 59
        || b == 44
}

fn is_doubled(b: u8) -> bool
    ensures { result ≡ is_doubled b }
{
    b == 43 || b == 38 || b == 124
}

fn is_assigned(b: u8) -> bool
    ensures { result ≡ is_assigned b }
{
    b == 42 || b == 47 || b == 37 || b == 94 || b == 33 || b == 61
}

/// How many of the bytes `b`, `n` and `m` are the longest punctuator that begins with `b`; 0 for
/// none.
#[tactic(auto, unfolding(crate::specs::Punctuators::punctuator_length))]
pub fn punctuator_length(b: u8, n: u8, m: u8) -> usize
    ensures { result ≡ punctuator_length b n m }
{
    if is_single(b) {
        return 1;
    }
    if b == 46 {
        return if n == 46 && m == 46 { 3 } else { 1 };
    }
    if b == 45 {
        return if n == 62 || n == 45 || n == 61 { 2 } else { 1 };
    }
    if is_doubled(b) {
        return if n == b || n == 61 { 2 } else { 1 };
    }
    if is_assigned(b) {
        return if n == 61 { 2 } else { 1 };
    }
    if b == 35 {
        return if n == 35 { 2 } else { 1 };
    }
    if b == 60 || b == 62 {
        return shifted_length(b, n, m);
    }
    0
}

fn shifted_length(b: u8, n: u8, m: u8) -> usize
    ensures { result ≡ shifted_length b n m }
{
    if n == b {
        return if m == 61 { 3 } else { 2 };
    }
    if n == 61 { 2 } else { 1 }
}
