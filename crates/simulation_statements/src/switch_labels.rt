//! Where the labels of switches stand.
