//! The name of a row of a pool.
ghost use Rattle.std.specs.Prelude.{◌≡◌, true, false};

/// One row of the pool that made it. It is given back to that pool, and to no other.
///
/// It has a mark for its holder, such as that the row has changed. The pool makes it unmarked, and
/// doesn't read the mark.
pub struct Row {
    pub(crate) index: u32,
    pub(crate) marked: bool,
}

impl Row {
    /// Sets the mark.
    pub fn mark(&mut self)
        ensures { self.new ≡ record self.old { marked = true } }
    {
        self.marked = true;
    }

    /// Takes the mark off, and says whether it was there.
    pub fn unmark(&mut self) -> bool
        ensures was { result ≡ self.old.marked }
        ensures row { self.new ≡ record self.old { marked = false } }
    {
        let was = self.marked;
        self.marked = false;
        was
    }
}
