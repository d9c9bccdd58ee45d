//! Definitions alone: the machine of the control-flow program, which goes from block to block.
