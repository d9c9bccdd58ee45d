//! Definitions alone: the machine of the source, which goes through a checked unit construct by construct.
