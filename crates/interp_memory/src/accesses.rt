//! Loads and stores of scalars (6.3.2.1, 6.5 and 6.5.16 of ISO/IEC 9899:2011).
ghost use Rattle.std.specs.Prelude.{◌≡◌, ◌+◌, ◌<◌, ◌≤◌, Bool, ◌&&◌, nat_le, length, IsTrue, ◌↔◌, IfOk, Some};
ghost use Rattle.c_layout.specs.declared.data_model.Model.{Model};
ghost use Rattle.memory_model.specs.Memory.ScalarSizes.{class_bytes};
ghost use Rattle.memory_model.specs.Memory.Instances.{bytes_at};
ghost use Rattle.memory_model.specs.Effects.Worlds.{World, with_memory};
ghost use Rattle.memory_model.specs.Effects.Accesses as machine;
ghost use Rattle.memory_model.specs.Effects.ScalarBytes.{scalar_bytes, region, contents};
ghost use Rattle.memory_model.specs.Effects.Touches.{is_literal, storage_at, touched, touched_live, set_bytes};
ghost use Rattle.interp_memory.specs.ByteViews.{pointer_view, contents_view, bytes_view, scalar_view};
ghost use Rattle.interp_memory.specs.AccessOutcomes.{scalar_kind, spot_view, touch_reply, loaded_reply, stored_reply, IsHalt, written_bytes};
ghost use Rattle.interp_memory.specs.InstanceViews.{remembering};
ghost use Rattle.interp_memory.specs.SoundPointers.{IsWithin};

use crate::byte_forms::{
    Byte7, Content7, InstKind, InstState, Loaded, Pointer7, Spot, Stored, Value7,
};
use crate::byte_reading::{fit, has_blank, scalar_from};
use crate::byte_writing::{put, write_scalar};
use crate::instance_memory::Memory7;
use crate::leaf_tags::class_size;
use c_layout::Class;
use cc_base::Rule;

impl Memory7 {
    /// Whether so many bytes at a pointer may be read, or written where `writes` is set: the place of
    /// the first of them, or the rule whose violation stops the run.
    pub fn touch(&self, at: &Pointer7, size: u64, writes: bool) -> Result<Spot, Rule>
        ensures outcome { (w : World) → touched (with_memory w self.now.memory) (pointer_view at.now) size writes ≡ touch_reply result (with_memory w self.now.memory) }
        ensures within { IsWithin self.now.memory (pointer_view at.now) → IfOk result (λ spot. spot.offset + size ≤ length (bytes_at self.now.memory spot.inst)) }
    {
        match at {
            Pointer7::Null => Err(Rule::Nullref),
            Pointer7::At { inst, off, lo, hi } => match self.state(*inst) {
                InstState::Ended => Err(Rule::Nullref),
                InstState::Freed => Err(Rule::Accfree),
                InstState::Live => self.touch_live(
                    Spot {
                        inst: *inst,
                        offset: *off,
                    },
                    *lo,
                    *hi,
                    size,
                    writes,
                ),
            },
        }
    }

    // The same of a pointer into a live instance.
    fn touch_live(
        &self,
        spot: Spot,
        lo: u64,
        hi: u64,
        size: u64,
        writes: bool,
    ) -> Result<Spot, Rule>
        ensures outcome { (w : World) → touched_live (with_memory w self.now.memory) spot.inst spot.offset lo hi size writes ≡ touch_reply result (with_memory w self.now.memory) }
        ensures same { IfOk result (λ found. found ≡ spot) }
        ensures within { IfOk result (λ found. found.offset + size ≤ hi) }
    {
        if !lies_within(spot.offset, size, lo, hi) {
            return Err(Rule::Invptr);
        }
        if self.forbids(spot.inst, writes) {
            return Err(Rule::Strmod);
        }
        Ok(spot)
    }

    // Whether an instance is a literal that would be written.
    fn forbids(&self, inst: u32, writes: bool) -> bool
        ensures { result ≡ (writes && is_literal (storage_at self.now.memory inst)) }
    {
        writes && self.kind(inst) == InstKind::Literal
    }

    /// The scalar of a class, signed or not, that a pointer points to.
    pub fn load(&self, at: &Pointer7, class: Class, signed: bool) -> Loaded
        ensures { (w : World) → machine.load_through self.now.model (scalar_kind self.now.model class signed) (pointer_view at.now) (with_memory w self.now.memory) ≡ loaded_reply result (with_memory w self.now.memory) }
    {
        let size = class_size(&self.model, class);
        match self.touch(at, u64::from(size), false) {
            Err(rule) => Loaded::Halt(Some(rule)),
            Ok(spot) => self.load_at(spot, class, signed),
        }
    }

    // Whether bytes at a place are read as a scalar of a class: characters under each tag, other
    // scalars under their own alone.
    fn is_seen_as(&self, allocated: bool, class: Class, spot: Spot) -> bool
        ensures { result ≡ machine.is_seen_as allocated class (region (bytes_at self.now.memory spot.inst) spot.offset (class_bytes self.now.model class)) }
    {
        let size = class_size(&self.model, class);
        class == Class::Char || fit(allocated, class, 0, self.region(spot, u64::from(size)))
    }

    // The scalar at a place that may be read.
    fn load_at(&self, spot: Spot, class: Class, signed: bool) -> Loaded
        ensures { (w : World) → machine.load_at self.now.model (scalar_kind self.now.model class signed) (spot_view spot) (with_memory w self.now.memory) ≡ loaded_reply result (with_memory w self.now.memory) }
    {
        let size = class_size(&self.model, class);
        if self.is_seen_as(self.is_allocated(spot.inst), class, spot) {
            self.read(class, signed, self.region(spot, u64::from(size)))
        } else {
            Loaded::Halt(None)
        }
    }

    // The scalar that bytes are, which may be seen as one of the class.
    fn read(&self, class: Class, signed: bool, bytes: &[Byte7]) -> Loaded
        requires { length bytes.now ≤ 8 }
        ensures { (w : World) → machine.read_contents (with_memory w self.now.memory) (scalar_kind self.now.model class signed) (contents (bytes_view bytes.now)) ≡ loaded_reply result (with_memory w self.now.memory) }
    {
        if has_blank(bytes) {
            return read_blank(class, signed);
        }
        match scalar_from(&self.model, class, signed, bytes) {
            None => Loaded::Halt(None),
            Some(value) => self.given(value),
        }
    }

    // A pointer into a freed instance is told apart.
    fn given(&self, value: Value7) -> Loaded
        ensures { (w : World) → machine.given (with_memory w self.now.memory) (Some (scalar_view value)) ≡ loaded_reply result (with_memory w self.now.memory) }
    {
        if self.is_into_freed(value) {
            Loaded::Freed(value)
        } else {
            Loaded::Value(value)
        }
    }

    fn is_into_freed(&self, value: Value7) -> bool
        ensures { result ≡ machine.points_into_freed self.now.memory (scalar_view value) }
    {
        match value {
            Value7::Ptr(Pointer7::At { inst, .. }) => self.state(inst) == InstState::Freed,
            Value7::Ptr(Pointer7::Null) | Value7::Int(_, _) => false,
        }
    }

    /// Whether the bounds of a pointer lie within its instance.
    pub fn is_within(&self, at: &Pointer7) -> bool
        ensures { IsTrue result ↔ IsWithin self.now.memory (pointer_view at.now) }
    {
        match at {
            Pointer7::Null => true,
            Pointer7::At { inst, hi, .. } => *hi <= self.size(*inst),
        }
    }

    /// Stores a scalar where a pointer points to, which has its bounds within its instance.
    pub fn store(&mut self, at: &Pointer7, class: Class, value: &Value7) -> Stored
        requires { IsWithin self.old.memory (pointer_view at.now) }
        ensures model { self.new.model ≡ self.old.model }
        ensures outcome { (signed : Bool) (w : World) → machine.store_through self.old.model (scalar_kind self.old.model class signed) (scalar_view value.now) (pointer_view at.now) (with_memory w self.old.memory) ≡ stored_reply result (scalar_view value.now) self.new.memory (with_memory w self.old.memory) }
        ensures halted { IsHalt result → self.new ≡ self.old }
    {
        let size = class_size(&self.model, class);
        match self.touch(at, u64::from(size), true) {
            Err(rule) => Stored::Halt(Some(rule)),
            Ok(spot) => self.store_at(spot, class, value),
        }
    }

    // Stores a scalar at a place that may be written.
    fn store_at(&mut self, spot: Spot, class: Class, value: &Value7) -> Stored
        requires { spot.offset + class_bytes self.old.model class ≤ length (bytes_at self.old.memory spot.inst) }
        ensures model { self.new.model ≡ self.old.model }
        ensures outcome { (w : World) → machine.store_at self.old.model class (scalar_view value.now) (spot_view spot) (with_memory w self.old.memory) ≡ stored_reply result (scalar_view value.now) self.new.memory (with_memory w self.old.memory) }
        ensures halted { IsHalt result → self.new ≡ self.old }
    {
        let allocated = self.is_allocated(spot.inst);
        if !(allocated || self.is_seen_as(false, class, spot)) {
            return Stored::Halt(None);
        }
        self.write(spot, class, allocated && class != Class::Char, value);
        Stored::Done
    }

    // Writes a scalar at a place, with its tags or under those that are there.
    fn write(&mut self, spot: Spot, class: Class, tagged: bool, value: &Value7)
        requires { spot.offset + class_bytes self.old.model class ≤ length (bytes_at self.old.memory spot.inst) }
        ensures { self.new ≡ remembering self.old (set_bytes self.old.memory spot.inst (written_bytes tagged class (bytes_at self.old.memory spot.inst) spot.offset (scalar_bytes (class_bytes self.old.model class) (scalar_view value.now)))) }
    {
        let size = usize::from(class_size(&self.model, class));
        let mut room = [Content7::Blank; 8];
        let contents = &mut room[..size];
        write_scalar(contents, value);
        self.put_contents(spot, class, tagged, contents);
    }

    // Puts contents at a place, with the tags of a scalar of a class or under those that are there.
    fn put_contents(&mut self, spot: Spot, class: Class, tagged: bool, contents: &[Content7])
        requires few { length contents.now ≤ 8 }
        requires within { spot.offset + length contents.now ≤ length (bytes_at self.old.memory spot.inst) }
        ensures { self.new ≡ remembering self.old (set_bytes self.old.memory spot.inst (written_bytes tagged class (bytes_at self.old.memory spot.inst) spot.offset (contents_view contents.now))) }
    {
        if (spot.inst as usize) < self.instances.len() {
            let instance = &mut self.instances[spot.inst as usize];
            put(
                instance.bytes.as_mut_slice(),
                spot.offset as usize,
                class,
                tagged,
                contents,
            );
        }
    }
}

// Whether so many bytes from an offset on lie between two bounds.
fn lies_within(offset: u64, size: u64, lo: u64, hi: u64) -> bool
    ensures { result ≡ (nat_le lo offset && nat_le (offset + size) hi) }
{
    lo <= offset && u128::from(offset) + u128::from(size) <= u128::from(hi)
}

// What a load of indeterminate bytes comes to: no violation where it is of an unsigned character.
fn read_blank(class: Class, signed: bool) -> Loaded
    ensures { (m : Model) (w : World) → machine.read_blank w (scalar_kind m class signed) ≡ loaded_reply result w }
{
    if class == Class::Char && !signed {
        Loaded::Halt(None)
    } else {
        Loaded::Halt(Some(Rule::Uninitref))
    }
}
