//! Definitions alone: what each step of the machine does to memory and to the numbers of the outside,
//! which rules it violates, and whether it ends the run. The machine of the source and that of the
//! control-flow program share them.
