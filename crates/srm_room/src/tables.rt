//! The tables of a room's file.

ghost use Rattle.std.specs.Prelude.{◌≡◌, [], ◌∷◌, map, IfOk, OnOk};
ghost use Rattle.hex.specs.Hex.{encode_lower};
ghost use Rattle.toml.specs.Data.{array, string, no_members, table};
ghost use Rattle.toml.specs.View.{view, items_of, items_view, table_view};
ghost use Rattle.srm_room.specs.Documents.{document, key_of, number, person_table, settings_table, waits_array};
ghost use Rattle.srm_room.specs.Putting.{put};
ghost use Rattle.srm_room.specs.Rooms.{person, content};

use crate::field::Field;
use crate::room_member::RoomMember;
use crate::room_settings::RoomSettings;
use std::alloc::{AllocError, Global};
use toml::{Table, Value};

/// Returns the document of a room.
pub(crate) fn document(
    alloc: Global,
    session: u32,
    key: &[u8],
    members: &[RoomMember],
    settings: &RoomSettings,
) -> Result<Table, AllocError>
    ensures { IfOk result (λ table. table_view table ≡ document (content session key.now members.now settings.now)) }
{
    let mut table = empty(alloc);
    put(
        alloc,
        &mut table,
        Field::Key,
        Value::from(hex::encode(alloc, key)?),
    )?;
    put(
        alloc,
        &mut table,
        Field::Member,
        people_array(alloc, members)?,
    )?;
    put(alloc, &mut table, Field::Ringyew, Value::from(1_u32))?;
    put(alloc, &mut table, Field::Session, Value::from(session))?;
    put(
        alloc,
        &mut table,
        Field::Settings,
        settings_table(alloc, settings)?,
    )?;
    Ok(table)
}

fn empty(alloc: Global) -> Table
    ensures { table_view result ≡ no_members }
{
    Table::new(alloc)
}

// Puts a value at a key of a table.
fn put(alloc: Global, table: &mut Table, field: Field, value: Value) -> Result<(), AllocError>
    ensures { OnOk result (table_view table.new ≡ put (key_of field) (view value) (table_view table.old)) }
{
    let key = String::from_str(alloc, field.key())?;
    match table.insert(key, value) {
        Ok(_) => Ok(()),
        Err(_) => Err(AllocError),
    }
}

fn people_array(alloc: Global, members: &[RoomMember]) -> Result<Value, AllocError>
    ensures { IfOk result (λ value. view value ≡ array (items_of (map person_table (map person members.now)))) }
{
    Ok(Value::from(people_values(alloc, members)?))
}

fn people_values(alloc: Global, members: &[RoomMember]) -> Result<Vec<Value>, AllocError>
    ensures { IfOk result (λ values. map view values.items ≡ map person_table (map person members.now)) }
{
    let mut values = Vec::new(alloc);
    for member in members {
        values.push(person_value(alloc, member)?)?;
    }
    Ok(values)
}

fn person_value(alloc: Global, member: &RoomMember) -> Result<Value, AllocError>
    ensures { IfOk result (λ value. view value ≡ person_table (person member.now)) }
{
    let mut table = empty(alloc);
    put(
        alloc,
        &mut table,
        Field::Address,
        Value::string(alloc, member.address.as_str())?,
    )?;
    put(
        alloc,
        &mut table,
        Field::Name,
        Value::string(alloc, member.name.as_str())?,
    )?;
    Ok(Value::from(table))
}

fn settings_table(alloc: Global, settings: &RoomSettings) -> Result<Value, AllocError>
    ensures { IfOk result (λ value. view value ≡ settings_table settings.now) }
{
    let mut table = empty(alloc);
    put(alloc, &mut table, Field::Depth, Value::from(settings.depth))?;
    put(
        alloc,
        &mut table,
        Field::LeastDistance,
        Value::from(settings.least_distance),
    )?;
    put(
        alloc,
        &mut table,
        Field::Linger,
        Value::from(settings.linger),
    )?;
    put(
        alloc,
        &mut table,
        Field::MostMissing,
        Value::from(settings.most_missing),
    )?;
    put(alloc, &mut table, Field::Rate, Value::from(settings.rate))?;
    put(
        alloc,
        &mut table,
        Field::Waits,
        waits_array(alloc, settings)?,
    )?;
    Ok(Value::from(table))
}

fn waits_array(alloc: Global, settings: &RoomSettings) -> Result<Value, AllocError>
    ensures { IfOk result (λ value. view value ≡ waits_array settings.now) }
{
    let mut waits = Vec::new(alloc);
    waits.push(Value::from(settings.c1))?;
    waits.push(Value::from(settings.c2))?;
    waits.push(Value::from(settings.d1))?;
    waits.push(Value::from(settings.d2))?;
    Ok(Value::from(waits))
}
