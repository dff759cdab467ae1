//! What stands in a table of a room's file.

ghost use Rattle.std.specs.Prelude.{◌≡◌, option_map};
ghost use Rattle.toml.specs.Data.{get_member, integer};
ghost use Rattle.toml.specs.View.{view, table_view, array_view};
ghost use Rattle.srm_room.specs.Readings.{Gives, size, value_in, text_of, text_in, number_of, number_in, table_of, array_of};

use crate::fault::Fault;
use crate::field::{Field, Place};
use toml::value::Array;
use toml::{Table, Value};

fn value_at<'a>(table: &'a Table, key: &str) -> Option<&'a Value>
    ensures { option_map (λ value. view value.now) result ≡ get_member key.now (table_view table.now) }
{
    table.get(key)
}

/// Returns how many keys a table has.
pub(crate) fn size(table: &Table) -> usize
    ensures { result ≡ size (table_view table.now) }
{
    table.len()
}

/// Returns what stands at a key.
pub(crate) fn value_in<'a>(place: Place, field: Field, table: &'a Table) -> Result<&'a Value, Fault>
    ensures { Gives (λ value. view value.now) result (value_in place field (table_view table.now)) }
{
    match value_at(table, field.key()) {
        Some(value) => Ok(value),
        None => Err(Fault::Lacks(place, field)),
    }
}

fn text_of<'a>(place: Place, field: Field, value: &'a Value) -> Result<&'a str, Fault>
    ensures { Gives (λ text. text.now) result (text_of place field (view value.now)) }
{
    match value {
        Value::String(text) => Ok(text.as_str()),
        _ => Err(Fault::Wrong(place, field)),
    }
}

/// Returns a number from the least to the greatest.
pub(crate) fn number_of(
    place: Place,
    field: Field,
    least: u32,
    greatest: u32,
    value: &Value,
) -> Result<u32, Fault>
    ensures { result ≡ number_of place field least greatest (view value.now) }
{
    match value {
        Value::Integer(number) => number_from(place, field, least, greatest, *number),
        _ => Err(Fault::Wrong(place, field)),
    }
}

fn number_from(
    place: Place,
    field: Field,
    least: u32,
    greatest: u32,
    number: i64,
) -> Result<u32, Fault>
    ensures { result ≡ number_of place field least greatest (integer number) }
{
    match u32::try_from(number) {
        Ok(number) if least <= number && number <= greatest => Ok(number),
        _ => Err(Fault::Wrong(place, field)),
    }
}

/// Returns a table.
pub(crate) fn table_of<'a>(place: Place, field: Field, value: &'a Value) -> Result<&'a Table, Fault>
    ensures { Gives (λ table. table_view table.now) result (table_of place field (view value.now)) }
{
    match value {
        Value::Table(table) => Ok(table),
        _ => Err(Fault::Wrong(place, field)),
    }
}

/// Returns an array.
pub(crate) fn array_of<'a>(place: Place, field: Field, value: &'a Value) -> Result<&'a Array, Fault>
    ensures { Gives (λ array. array_view array.now) result (array_of place field (view value.now)) }
{
    match value {
        Value::Array(array) => Ok(array),
        _ => Err(Fault::Wrong(place, field)),
    }
}

/// Returns the text at a key.
pub(crate) fn text_in<'a>(place: Place, field: Field, table: &'a Table) -> Result<&'a str, Fault>
    ensures { Gives (λ text. text.now) result (text_in place field (table_view table.now)) }
{
    text_of(place, field, value_in(place, field, table)?)
}

/// Returns the number at a key, from the least to the greatest.
pub(crate) fn number_in(
    place: Place,
    field: Field,
    least: u32,
    greatest: u32,
    table: &Table,
) -> Result<u32, Fault>
    ensures { result ≡ number_in place field least greatest (table_view table.now) }
{
    number_of(
        place,
        field,
        least,
        greatest,
        value_in(place, field, table)?,
    )
}
