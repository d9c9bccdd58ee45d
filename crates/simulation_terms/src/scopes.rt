//! Statements in scopes and loops, and the ways out of these.
