//! Which objects of a function live where it has some items to do, and which items name just those.
