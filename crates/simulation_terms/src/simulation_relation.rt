//! What the source still has to do stands in the pieces of templates that are still to be done.
