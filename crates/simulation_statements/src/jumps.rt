//! Jumps in their pieces: `break`, `continue`, `goto` and `return`.
