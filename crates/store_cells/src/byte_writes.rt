//! What cells become where some of their bytes are overwritten one by one.
ghost use Rattle.std.specs.Prelude.{◌≡◌};
ghost use Rattle.store_cells.specs.ByteWrites.{null_pointer, labelled_null, byte_written};

use crate::cell_reads::whole_range;
use crate::class_numbers::is_pointer;
use crate::scalar_types::kind_of;
use c_layout::{Class, Model};
use cc_base::{IntDomain, Lattice};
use pointer_domain::{Bases, Pointers};
use value_domain::values::{Labels, Value};

/// The pointers that are null alone.
pub fn null_pointer<I: IntDomain>() -> Pointers<I>
    ensures { result ≡ null_pointer I.lattice }
{
    Pointers {
        bases: Bases::empty(),
        lo: I::bottom(),
        rel: I::bottom(),
        len: I::bottom(),
        part: false,
        null: true,
        ended: false,
    }
}

/// Null with labels: what numbers in the bytes of a pointer can be.
pub fn labelled_null<I: IntDomain>(labels: Labels) -> Value<I>
    ensures { result ≡ labelled_null I.lattice labels }
{
    Value {
        num: I::bottom(),
        pointer: null_pointer(),
        indeterminate: false,
        labels,
    }
}

/// What a cell of a class may be after bytes of it were set to numbers with labels: all numbers of its
/// type or, for a pointer, null.
pub fn byte_written<I: IntDomain>(
    model: &Model,
    class: Class,
    signed: bool,
    labels: Labels,
) -> Value<I>
    ensures { result ≡ byte_written I.lattice I.numbers model.now class signed labels }
{
    if is_pointer(class) {
        labelled_null(labels)
    } else {
        whole_range(kind_of(model, class, signed), labels, false)
    }
}
