//! Works of templates and items of the source, one after the other.
