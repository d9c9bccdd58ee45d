//! Runs of templates: the pieces of each function one after the other, with the functions that wait on a stack.
