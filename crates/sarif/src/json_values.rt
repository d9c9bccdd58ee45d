//! Values of a JSON text, read one by one.
ghost use Rattle.std.specs.Prelude.{◌≡◌, ◌≤◌, ◌<◌, ◌∷◌, length, Some, None, Err, IfOk, OnOk};
ghost use Rattle.json.specs.Json.{value, items, members};
ghost use Rattle.json.specs.Reads.{token_of};
ghost use Rattle.serde_json.specs.Data.{no_members};
ghost use Rattle.serde_json.specs.Read.{of_json, of_items, of_members, converted};
ghost use Rattle.serde_json.specs.View.{view, items_view, members_view};
ghost use Rattle.sarif.specs.declared.base_fault.BaseFault.TheVariants.{Shape};

use crate::base_fault::BaseFault;
use crate::json_numbers::number_of;
use json::{Reader, Token};
use serde_json::{Map, Value};
use std::alloc::Global;

/// The next value. Arrays and objects may nest `depth` deep.
#[cycle(values)]
pub fn read_value(alloc: Global, reader: &mut Reader<'_>, depth: usize) -> Result<Value, BaseFault>
    ensures ok { IfOk result (λ v. converted of_json (value depth reader.old) ≡ Some (view v, reader.new)) }
    ensures shorter { OnOk result (length reader.new < length reader.old) }
    ensures shape { result ≡ Err Shape → converted of_json (value depth reader.old) ≡ None }
{
    let token = reader.next().ok_or(BaseFault::Shape)?;
    value_behind(alloc, token, reader, depth)
}

/// The value whose first token was taken.
#[cycle(values)]
pub fn value_behind(
    alloc: Global,
    token: Token<'_>,
    reader: &mut Reader<'_>,
    depth: usize,
) -> Result<Value, BaseFault>
    ensures ok { IfOk result (λ v. converted of_json (value depth (token_of token.entry ∷ reader.old)) ≡ Some (view v, reader.new)) }
    ensures shorter { OnOk result (length reader.new ≤ length reader.old) }
    ensures shape { result ≡ Err Shape → converted of_json (value depth (token_of token.entry ∷ reader.old)) ≡ None }
{
    match token {
        Token::String(text) => Ok(Value::String(String::from_str(alloc, text)?)),
        Token::Number(digits) => match number_of(digits) {
            Some(number) => Ok(Value::Number(number)),
            None => Err(BaseFault::Shape),
        },
        Token::Bool(truth) => Ok(Value::Bool(truth)),
        Token::Null => Ok(Value::Null),
        Token::EndObject | Token::EndArray | Token::Key(_) | Token::Bad => Err(BaseFault::Shape),
        Token::BeginArray => {
            if depth == 0 {
                return Err(BaseFault::Shape);
            }
            Ok(Value::Array(read_items(alloc, reader, depth - 1)?))
        }
        Token::BeginObject => {
            if depth == 0 {
                return Err(BaseFault::Shape);
            }
            Ok(Value::Object(read_members(alloc, reader, depth - 1)?))
        }
    }
}

/// The items of an array, up to the bracket that closes it.
#[cycle(values)]
fn read_items(alloc: Global, reader: &mut Reader<'_>, depth: usize) -> Result<Vec<Value>, BaseFault>
    ensures ok { IfOk result (λ v. converted of_items (items (value depth) (length reader.old) reader.old) ≡ Some (items_view v.items, reader.new)) }
    ensures shorter { OnOk result (length reader.new < length reader.old) }
    ensures shape { result ≡ Err Shape → converted of_items (items (value depth) (length reader.old) reader.old) ≡ None }
{
    let mut found = Vec::new(alloc);
    'items: while !reader.take_end_array() {
        let item = read_value(alloc, reader, depth)?;
        found.push(item)?;
    }
    Ok(found)
}

/// The members of an object, up to the brace that closes it.
#[cycle(values)]
fn read_members(
    alloc: Global,
    reader: &mut Reader<'_>,
    depth: usize,
) -> Result<Map<String, Value>, BaseFault>
    ensures ok { IfOk result (λ m. converted (λ ms. of_members ms no_members) (members (value depth) (length reader.old) reader.old) ≡ Some (members_view m.entries, reader.new)) }
    ensures shorter { OnOk result (length reader.new < length reader.old) }
    ensures shape { result ≡ Err Shape → converted (λ ms. of_members ms no_members) (members (value depth) (length reader.old) reader.old) ≡ None }
{
    let mut found = Map::new(alloc);
    'members: while let Some(name) = reader.next_key()? {
        let key = String::from_str(alloc, name)?;
        let member = read_value(alloc, reader, depth)?;
        drop(found.insert(key, member)?);
    }
    Ok(found)
}
