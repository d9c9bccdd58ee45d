//! Definitions alone: the memory of a C program, byte by byte, and the scalars in it.
