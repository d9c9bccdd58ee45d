//! Statements in their pieces, each from its parts.
