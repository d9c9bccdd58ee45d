//! The memory of a run: its instances by their numbers.
ghost use Rattle.std.specs.Prelude.{◌≡◌, ◌+◌, ◌<◌, ◌≤◌, ◌++◌, [], ◌∷◌, length, OnOk, OnErr, IfOk, IsTrue, ◌↔◌, slice_get, Some};
ghost use Rattle.memory_model.specs.Memory.Instances.{ended, freed, bytes_at, life_at, total_size};
ghost use Rattle.memory_model.specs.Effects.ObjectEffects.{fresh, blank_bytes, set_life, all_of};
ghost use Rattle.memory_model.specs.Effects.ScalarBytes.{region, replaced, refilled};
ghost use Rattle.memory_model.specs.Effects.Touches.{is_allocated, storage_at, set_bytes};
ghost use Rattle.interp_memory.specs.ByteViews.{content_view, contents_view, byte_view, bytes_view};
ghost use Rattle.interp_memory.specs.InstanceViews.{Instances, remembering, storage_view, life_view, with_byte};

use crate::byte_forms::{Byte7, Content7, InstKind, InstState, Spot};
use crate::byte_writing::{fill_all, overwrite, put_byte, refill};
use crate::instances::Instance;
use crate::leaf_tags::blank;
use c_layout::{Leaf, Model};
use cc_base::Memory;
use std::alloc::Global;

/// The memory of a C program (6.2.4 and 6.2.6 of ISO/IEC 9899:2011), byte by byte, under a data
/// model, which says how many bytes a class of scalars has. Instances are numbered from 0 in the order
/// in which they are made; what has ended stays. An instance that was not made is one that has ended,
/// of no byte.
///
/// Contracts see the model and the list of instances.
#[derive(Drop)]
pub struct Memory7 {
    alloc: Global,
    pub(crate) model: Model,
    pub(crate) instances: Vec<Instance>,
    // how many bytes all instances have together
    total_bytes: u64,
}

impl std::marker::Model for Memory7 {
    ghost use Rattle.std.specs.Prelude.{◌≡◌, map};
    ghost use Rattle.memory_model.specs.Memory.Instances.{total_size};
    ghost use Rattle.interp_memory.specs.InstanceViews.{Instances, instance_view};

    ghost Value = { Instances };

    ghost view = { λ m. record { model = m.model; memory = map instance_view m.instances.items } };

    ghost invariant = { λ m. m.total_bytes ≡ total_size (map instance_view m.instances.items) };
}

impl Memory7 {
    /// The memory without any instance. Takes no memory.
    pub fn new(alloc: Global, model: &Model) -> Memory7
        ensures { result ≡ record { model = model.now; memory = [] } }
    {
        Memory7 {
            alloc,
            model: *model,
            instances: Vec::new(alloc),
            total_bytes: 0,
        }
    }

    /// Whether the memory is under a model.
    pub fn is_under(&self, model: &Model) -> bool
        ensures { IsTrue result ↔ (self.now.model ≡ model.now) }
    {
        self.model == *model
    }

    /// Makes a live instance of `size` indeterminate bytes, with the tags of the leaves of its
    /// object's type, and answers its number. On want of memory all is as before; so it is where
    /// all instances together would have 2^64 bytes.
    pub fn enter(&mut self, kind: InstKind, tags: &[Leaf], size: u64) -> Result<u32, Memory>
        requires { length self.old.memory < 4294967295 }
        ensures number { IfOk result (λ n. n ≡ length self.old.memory) }
        ensures made { OnOk result (self.new ≡ remembering self.old (self.old.memory ++ fresh (storage_view kind) (blank_bytes self.old.model tags.now 0 size) ∷ [])) }
        ensures err { OnErr result (self.new ≡ self.old) }
    {
        let Some(total) = self.total_bytes.checked_add(size) else {
            return Err(Memory);
        };
        let bytes = blank(self.alloc, &self.model, tags, size)?;
        let number = self.instances.len() as u32;
        self.instances.push(Instance {
            kind,
            state: InstState::Live,
            bytes,
        })?;
        self.total_bytes = total;
        Ok(number)
    }

    fn set_state(&mut self, inst: u32, state: InstState)
        ensures { self.new ≡ remembering self.old (set_life self.old.memory inst (life_view state)) }
    {
        if (inst as usize) < self.instances.len() {
            let instance = &mut self.instances[inst as usize];
            instance.state = state;
        }
    }

    /// Ends the lifetime of an instance.
    pub fn leave(&mut self, inst: u32)
        ensures { self.new ≡ remembering self.old (set_life self.old.memory inst ended) }
    {
        self.set_state(inst, InstState::Ended);
    }

    /// Frees an instance.
    pub fn free(&mut self, inst: u32)
        ensures { self.new ≡ remembering self.old (set_life self.old.memory inst freed) }
    {
        self.set_state(inst, InstState::Freed);
    }

    /// The number of instances that were made.
    pub fn count(&self) -> usize
        ensures { result ≡ length self.now.memory }
    {
        self.instances.len()
    }

    /// How many bytes all instances have together, those that have ended too.
    pub fn total(&self) -> u64
        ensures { result ≡ total_size self.now.memory }
    {
        self.total_bytes
    }

    /// The storage of an instance.
    pub fn kind(&self, inst: u32) -> InstKind
        ensures { storage_view result ≡ storage_at self.now.memory inst }
    {
        match self.instances.get(inst as usize) {
            Some(instance) => instance.kind,
            None => InstKind::Static,
        }
    }

    /// Whether an instance lives.
    pub fn state(&self, inst: u32) -> InstState
        ensures { life_view result ≡ life_at self.now.memory inst }
    {
        match self.instances.get(inst as usize) {
            Some(instance) => instance.state,
            None => InstState::Ended,
        }
    }

    /// The bytes of an instance.
    pub fn bytes(&self, inst: u32) -> &[Byte7]
        ensures { bytes_view result.now ≡ bytes_at self.now.memory inst }
    {
        match self.instances.get(inst as usize) {
            Some(instance) => instance.bytes.as_slice(),
            None => &[],
        }
    }

    /// How many bytes an instance has.
    pub fn size(&self, inst: u32) -> u64
        ensures { result ≡ length (bytes_at self.now.memory inst) }
    {
        self.bytes(inst).len() as u64
    }

    /// One byte of an instance.
    pub fn byte(&self, inst: u32, at: u64) -> Byte7
        requires { at < length (bytes_at self.now.memory inst) }
        ensures { Some (byte_view result) ≡ slice_get (bytes_at self.now.memory inst) at }
    {
        self.bytes(inst)[at as usize]
    }

    /// The bytes of an instance from a place on, so many of them, as far as the instance reaches.
    pub fn region(&self, at: Spot, size: u64) -> &[Byte7]
        ensures bytes { bytes_view result.now ≡ region (bytes_at self.now.memory at.inst) at.offset size }
        ensures most { length result.now ≤ size }
    {
        let bytes = self.bytes(at.inst);
        let from = (at.offset as usize).min(bytes.len());
        let rest = &bytes[from..];
        let count = (size as usize).min(rest.len());
        &rest[..count]
    }

    /// Whether an instance was allocated by the library.
    pub fn is_allocated(&self, inst: u32) -> bool
        ensures { result ≡ is_allocated (storage_at self.now.memory inst) }
    {
        is_heap(self.kind(inst))
    }

    /// Replaces a byte. On a declared object or a literal its tag stays.
    pub fn set_byte(&mut self, inst: u32, at: u64, byte: Byte7)
        requires { at < length (bytes_at self.old.memory inst) }
        ensures { self.new ≡ remembering self.old (set_bytes self.old.memory inst (with_byte (is_allocated (storage_at self.old.memory inst)) (byte_view byte) (bytes_at self.old.memory inst) at)) }
    {
        let instance = &mut self.instances[inst as usize];
        let takes_tag = is_heap(instance.kind);
        put_byte(instance.bytes.as_mut_slice(), at as usize, takes_tag, byte);
    }

    /// Puts a content into each byte of an instance. The tags stay.
    pub fn fill(&mut self, inst: u32, content: Content7)
        ensures { self.new ≡ remembering self.old (set_bytes self.old.memory inst (all_of (content_view content) (bytes_at self.old.memory inst))) }
    {
        if (inst as usize) < self.instances.len() {
            let instance = &mut self.instances[inst as usize];
            fill_all(instance.bytes.as_mut_slice(), content);
        }
    }

    /// Puts contents in the place of those from a place on, as far as the instance reaches. The tags
    /// stay.
    pub fn rewrite(&mut self, at: Spot, contents: &[Content7])
        ensures { self.new ≡ remembering self.old (set_bytes self.old.memory at.inst (refilled (bytes_at self.old.memory at.inst) at.offset (contents_view contents.now))) }
    {
        if (at.inst as usize) < self.instances.len() {
            let instance = &mut self.instances[at.inst as usize];
            refill(instance.bytes.as_mut_slice(), at.offset as usize, contents);
        }
    }

    /// Puts bytes with their tags in the place of as many from a place on.
    pub fn replace(&mut self, at: Spot, bytes: &[Byte7])
        requires { at.offset + length bytes.now ≤ length (bytes_at self.old.memory at.inst) }
        ensures { self.new ≡ remembering self.old (set_bytes self.old.memory at.inst (replaced (bytes_at self.old.memory at.inst) at.offset (bytes_view bytes.now))) }
    {
        if (at.inst as usize) < self.instances.len() {
            let instance = &mut self.instances[at.inst as usize];
            overwrite(instance.bytes.as_mut_slice(), at.offset as usize, bytes);
        }
    }
}

// Whether a storage is that of allocated memory.
fn is_heap(kind: InstKind) -> bool
    ensures { result ≡ is_allocated (storage_view kind) }
{
    kind == InstKind::Heap
}
