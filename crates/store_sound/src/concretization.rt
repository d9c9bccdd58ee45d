//! Definitions alone: the states of the machine for which a row of the analysis stands.
