//! The marks that works are still to make: lemmas for the laws on labels.
