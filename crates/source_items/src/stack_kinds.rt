//! What the items of a function do to its pending values by their kinds: definitions, and proofs of terms, statements
//! and labels.
