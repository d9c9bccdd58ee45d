//! The labels and edges of switches, and where they lead.
