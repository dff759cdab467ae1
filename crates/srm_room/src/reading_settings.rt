//! The settings of a room's file.

ghost use Rattle.std.specs.Prelude.{◌≡◌};
ghost use Rattle.toml.specs.View.{items_view, table_view, view};
ghost use Rattle.srm_room.specs.Readings.{setting_in, settings_at, settings_in, wait_of, waits_in, waits_of};

use crate::fault::Fault;
use crate::field::{Field, Place};
use crate::looking::{array_of, number_in, number_of, size, table_of, value_in};
use crate::room_settings::{GREATEST_WAIT, RoomSettings};
use toml::{Table, Value};

// The four waits, in distances.
#[derive(Clone, Copy)]
pub(crate) struct Waits {
    c1: u32,
    c2: u32,
    d1: u32,
    d2: u32,
}

/// Reads the settings of a room's file.
pub(crate) fn settings_at(table: &Table) -> Result<RoomSettings, Fault>
    ensures { result ≡ settings_at (table_view table.now) }
{
    let value = value_in(Place::Top, Field::Settings, table)?;
    let table = table_of(Place::Top, Field::Settings, value)?;
    settings_in(table)
}

#[tactic(auto, unfolding(crate::specs::Readings::settings_in))]
fn settings_in(table: &Table) -> Result<RoomSettings, Fault>
    ensures { result ≡ settings_in (table_view table.now) }
{
    let waits = waits_in(table)?;
    let least_distance = setting_in(Field::LeastDistance, 1, 10_000_000, table)?;
    let rate = setting_in(Field::Rate, 1, 100_000_000, table)?;
    let depth = setting_in(Field::Depth, 1_051, 1_000_000, table)?;
    let linger = setting_in(Field::Linger, 0, 30_000_000, table)?;
    let most_missing = setting_in(Field::MostMissing, 1, 16_777_216, table)?;
    if size(table) != 6 {
        return Err(Fault::Unknown(Place::Settings));
    }
    Ok(RoomSettings {
        c1: waits.c1,
        c2: waits.c2,
        d1: waits.d1,
        d2: waits.d2,
        least_distance,
        rate,
        depth,
        linger,
        most_missing,
    })
}

fn setting_in(field: Field, least: u32, greatest: u32, table: &Table) -> Result<u32, Fault>
    ensures { result ≡ setting_in field least greatest (table_view table.now) }
{
    number_in(Place::Settings, field, least, greatest, table)
}

#[tactic(auto, unfolding(crate::specs::Readings::waits_in))]
fn waits_in(table: &Table) -> Result<Waits, Fault>
    ensures { result ≡ waits_in (table_view table.now) }
{
    let value = value_in(Place::Settings, Field::Waits, table)?;
    let values = array_of(Place::Settings, Field::Waits, value)?;
    waits_of(values.as_slice())
}

fn waits_of(values: &[Value]) -> Result<Waits, Fault>
    ensures { result ≡ waits_of (items_view values.now) }
{
    match values {
        [c1, c2, d1, d2] => {
            let c1 = wait_of(c1)?;
            let c2 = wait_of(c2)?;
            let d1 = wait_of(d1)?;
            let d2 = wait_of(d2)?;
            Ok(Waits { c1, c2, d1, d2 })
        }
        _ => Err(Fault::Wrong(Place::Settings, Field::Waits)),
    }
}

fn wait_of(value: &Value) -> Result<u32, Fault>
    ensures { result ≡ wait_of (view value.now) }
{
    number_of(Place::Settings, Field::Waits, 0, GREATEST_WAIT, value)
}
