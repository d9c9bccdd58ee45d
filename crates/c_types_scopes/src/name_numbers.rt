//! Numbers for names.
ghost use Rattle.std.specs.Prelude.{◌≡◌, [], IfOk};
ghost use Rattle.c_types_scopes.specs.Names.{texts_of, number_in, with_text, known_in, narrowed};

use cc_base::Memory;
use indexmap::IndexSet;
use std::alloc::Global;

/// The names that were met, each with its number.
#[derive(Drop)]
pub struct NameNumbers {
    texts: IndexSet<Vec<u8>>,
}

/// A number that is small enough.
pub(crate) fn short(n: usize) -> Result<u32, Memory>
    ensures { IfOk result (λ m. m ≡ n) }
{
    match u32::try_from(n) {
        Ok(m) => Ok(m),
        Err(_) => Err(Memory),
    }
}

/// A number that is small enough, or none.
fn narrowed(n: Option<usize>) -> Option<u32>
    ensures { result ≡ narrowed n }
{
    match n {
        Some(wide) => u32::try_from(wide).ok(),
        None => None,
    }
}

impl NameNumbers {
    /// No name.
    pub fn new(alloc: Global) -> NameNumbers
        ensures { texts_of result ≡ [] }
    {
        NameNumbers {
            texts: IndexSet::new(alloc),
        }
    }

    /// The number of a name, a new one if it is new.
    pub fn number(&mut self, alloc: Global, text: &[u8]) -> Result<u32, Memory>
        ensures number { IfOk result (λ n. n ≡ number_in (texts_of self.old) text.now) }
        ensures texts { IfOk result (λ _. texts_of self.new ≡ with_text (texts_of self.old) text.now) }
    {
        let key = Vec::from_slice(alloc, text)?;
        let (number, _) = self.texts.insert_full(key)?;
        short(number)
    }

    /// The number of a name that was met.
    pub fn known(&self, text: &[u8]) -> Option<u32>
        ensures { result ≡ known_in (texts_of self.now) text.now }
    {
        narrowed(self.texts.get_index_of(text))
    }
}
