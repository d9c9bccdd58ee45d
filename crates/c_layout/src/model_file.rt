//! Data models from files in TOML.
ghost use Rattle.std.specs.Prelude.{◌≡◌, ◌⊎◌, ◌+◌, ◌==◌, Err, Some, codes, length, option_map, option_and_then, IsUtf8};
ghost use Rattle.toml.specs.Data.{as_bool, as_integer, get_member};
ghost use Rattle.toml.specs.Parse.{parse_document};
ghost use Rattle.toml.specs.View.{table_view};
ghost use Rattle.c_layout.specs.Models.{short_fits, int_fits, long_fits, long_long_fits, pointer_fits};
ghost use Rattle.c_layout.specs.ModelText.{byte_of, byte_in, bool_in, count_of, values_in, judged, judged_if, model_in};

use crate::data_model::Model;
use std::alloc::Global;
use std::str;
use thiserror::Error;
use toml::Table;

/// The keys of a model file, in the order in which their values are looked at.
#[derive(Clone, Copy, PartialEq, Eq, Debug, Error)]
pub enum Key {
    #[error("short")]
    Short,
    #[error("int")]
    Int,
    #[error("long")]
    Long,
    #[error("long_long")]
    LongLong,
    #[error("pointer")]
    Pointer,
    #[error("char_signed")]
    CharSigned,
}

/// Why a file gives no model.
#[derive(Clone, Copy, PartialEq, Eq, Debug, Error)]
pub enum ModelFault {
    /// The text is no TOML, or its keys are not exactly the six of a model with values of their
    /// kinds.
    #[error("the file is no data model")]
    Shape,
    /// The value of this key, the first such one, is outside its list.
    #[error("the value of {0} is not allowed")]
    Value(Key),
    /// Want of memory.
    #[error("out of memory")]
    Memory,
}

/// The number under a key, as a byte.
fn byte_at(table: &Table, key: &str) -> Option<u8>
    ensures { result ≡ byte_in key.now (table_view table.now) }
{
    let number = integer_at(table, key)?;
    Some(to_byte(number))
}

/// A number as a byte, and 0 where it is none.
fn to_byte(number: i64) -> u8
    ensures { result ≡ byte_of number }
{
    if 0 <= number && number < 256 {
        number as u8
    } else {
        0
    }
}

fn integer_at(table: &Table, key: &str) -> Option<i64>
    ensures { result ≡ option_and_then as_integer (get_member key.now (table_view table.now)) }
{
    match table.get(key) {
        Some(value) => value.as_integer(),
        None => None,
    }
}

fn bool_at(table: &Table, key: &str) -> Option<bool>
    ensures { result ≡ bool_in key.now (table_view table.now) }
{
    match table.get(key) {
        Some(value) => value.as_bool(),
        None => None,
    }
}

/// The values of the six keys.
fn values(table: &Table) -> Option<Model>
    ensures { result ≡ values_in (table_view table.now) }
{
    let short = byte_at(table, "short")?;
    let int = byte_at(table, "int")?;
    let long = byte_at(table, "long")?;
    let long_long = byte_at(table, "long_long")?;
    let pointer = byte_at(table, "pointer")?;
    let char_signed = bool_at(table, "char_signed")?;
    Some(Model {
        short,
        int,
        long,
        long_long,
        pointer,
        char_signed,
    })
}

fn fits_long(n: u8) -> bool
    ensures { result ≡ long_fits n }
{
    n == 4 || n == 8
}

fn fits_int(n: u8) -> bool
    ensures { result ≡ int_fits n }
{
    n == 2 || n == 4
}

fn fits_pointer(m: &Model) -> bool
    ensures { result ≡ pointer_fits m.now.int m.now.long m.now.long_long m.now.pointer }
{
    fits_long(m.pointer) && (m.pointer == m.int || m.pointer == m.long || m.pointer == m.long_long)
}

/// The model, or the first key whose value is outside its list.
fn judge(m: Model) -> Result<Model, ModelFault>
    ensures { result ≡ judged m }
{
    if m.short != 2 {
        return Err(ModelFault::Value(Key::Short));
    }
    if !fits_int(m.int) {
        return Err(ModelFault::Value(Key::Int));
    }
    if !fits_long(m.long) {
        return Err(ModelFault::Value(Key::Long));
    }
    if m.long_long != 8 {
        return Err(ModelFault::Value(Key::LongLong));
    }
    if !fits_pointer(&m) {
        return Err(ModelFault::Value(Key::Pointer));
    }
    Ok(m)
}

/// Whether a table has six keys.
#[tactic(auto, using(crate::proofs::Counts::count_entries))]
fn holds_six(table: &Table) -> bool
    ensures { result ≡ (count_of (table_view table.now) == 6) }
{
    table.len() == 6
}

/// What a table says, if it has exactly six keys.
fn model_of(table: &Table) -> Result<Model, ModelFault>
    ensures { result ≡ model_in (Some (table_view table.now)) }
{
    if !holds_six(table) {
        return Err(ModelFault::Shape);
    }
    match values(table) {
        Some(model) => judge(model),
        None => Err(ModelFault::Shape),
    }
}

fn from_text(alloc: Global, text: &str) -> Result<Model, ModelFault>
    ensures { (result ≡ Err ModelFault.Memory) ⊎ (result ≡ model_in (parse_document text.now)) }
{
    match toml::table_from_str(alloc, text) {
        Ok(table) => model_of(&table),
        Err(error) => {
            if error.span().is_none() {
                Err(ModelFault::Memory)
            } else {
                Err(ModelFault::Shape)
            }
        }
    }
}

/// The model that a file gives: a TOML table with exactly the keys `short`, `int`, `long`,
/// `long_long`, `pointer` (numbers) and `char_signed` (true or false). `Shape` comes exactly where
/// the bytes are no such table, else `Value` with the first key whose number is outside its list.
pub fn from_toml(alloc: Global, bytes: &[u8]) -> Result<Model, ModelFault>
    ensures text { IsUtf8 bytes.now → (result ≡ Err ModelFault.Memory) ⊎ (result ≡ model_in (parse_document bytes.now)) }
    ensures binary { ¬ IsUtf8 bytes.now → result ≡ Err ModelFault.Shape }
{
    match str::from_utf8(bytes) {
        Ok(text) => from_text(alloc, text),
        Err(_) => Err(ModelFault::Shape),
    }
}
