//! The members of a room's file.

ghost use Rattle.std.specs.Prelude.{◌≡◌, [], map, IfOk};
ghost use Rattle.toml.specs.View.{view, array_view, items_view, table_view};
ghost use Rattle.srm_room.specs.Rooms.{person, person_of, has_name, has_address};
ghost use Rattle.srm_room.specs.Readings.{Gives, Reads, counted, judged, people_behind, people_in, person_at, person_in, values_in};

use crate::addressing::is_address;
use crate::fault::{Fault, RoomError};
use crate::field::{Field, Place};
use crate::looking::{array_of, size, table_of, text_in, value_in};
use crate::naming::is_name;
use crate::room_member::RoomMember;
use srm_names::MEMBERS;
use std::alloc::{AllocError, Global};
use toml::value::Array;
use toml::{Table, Value};

/// Reads the members of a room's file.
#[tactic(auto, unfolding(crate::specs::Readings::people_in))]
pub(crate) fn people_in(alloc: Global, table: &Table) -> Result<Vec<RoomMember>, RoomError>
    ensures { Reads (λ members. map person members.items) result (people_in (table_view table.now)) }
{
    let values = values_in(table)?;
    let members = people_of(alloc, values.as_slice())?;
    Ok(counted(members)?)
}

#[tactic(auto, unfolding(crate::specs::Readings::values_in))]
fn values_in<'a>(table: &'a Table) -> Result<&'a Array, Fault>
    ensures { Gives (λ values. array_view values.now) result (values_in (table_view table.now)) }
{
    let value = value_in(Place::Top, Field::Member, table)?;
    array_of(Place::Top, Field::Member, value)
}

fn people_of(alloc: Global, values: &[Value]) -> Result<Vec<RoomMember>, RoomError>
    ensures { Reads (λ members. map person members.items) result (people_behind [] (items_view values.now)) }
{
    let mut members = Vec::new(alloc);
    for value in values {
        let member = match person_at(alloc, members.as_slice(), value) {
            Ok(member) => member,
            Err(error) => return Err(error),
        };
        if members.push(member).is_err() {
            return Err(RoomError::Memory);
        }
    }
    Ok(members)
}

#[tactic(auto, using(crate::proofs::Persons::people_count))]
fn counted(members: Vec<RoomMember>) -> Result<Vec<RoomMember>, Fault>
    ensures { Gives (λ members. map person members.items) result (counted (map person members.items)) }
{
    if members.is_empty() {
        return Err(Fault::NoMember);
    }
    if members.len() > usize::from(MEMBERS) {
        return Err(Fault::TooMany);
    }
    Ok(members)
}

#[tactic(auto, using(crate::proofs::Persons::people_count))]
fn person_at(alloc: Global, before: &[RoomMember], value: &Value) -> Result<RoomMember, RoomError>
    ensures { Reads person result (person_at (map person before.now) (view value.now)) }
{
    let table = table_of(Place::Member(before.len()), Field::Member, value)?;
    let (name, address) = texts_in(before, table)?;
    Ok(copied(alloc, name, address)?)
}

#[tactic(auto, using(crate::proofs::Persons::people_count), unfolding(crate::specs::Readings::person_in))]
fn texts_in<'a>(before: &[RoomMember], table: &'a Table) -> Result<(&'a str, &'a str), Fault>
    ensures { Gives (λ texts. person_of texts.0.now texts.1.now) result (person_in (map person before.now) (table_view table.now)) }
{
    let place = Place::Member(before.len());
    let name = text_in(place, Field::Name, table)?;
    let address = text_in(place, Field::Address, table)?;
    if size(table) != 2 {
        return Err(Fault::Unknown(place));
    }
    judged(before, name, address)?;
    Ok((name, address))
}

// Refuses a member that can't stand behind those before.
#[tactic(auto, using(crate::proofs::Persons::people_count))]
fn judged(before: &[RoomMember], name: &str, address: &str) -> Result<(), Fault>
    ensures { Gives (λ _. person_of name.now address.now) result (judged (map person before.now) (person_of name.now address.now)) }
{
    let place = before.len();
    if !is_name(name) {
        Err(Fault::Name(place))
    } else if !is_address(address) {
        Err(Fault::Address(place))
    } else if has_name(before, name) {
        Err(Fault::NameTwice(place))
    } else if has_address(before, address) {
        Err(Fault::AddressTwice(place))
    } else {
        Ok(())
    }
}

fn has_name(members: &[RoomMember], name: &str) -> bool
    ensures { result ≡ has_name (map person members.now) name.now }
{
    for member in members {
        if member.name.as_str() == name {
            return true;
        }
    }
    false
}

fn has_address(members: &[RoomMember], address: &str) -> bool
    ensures { result ≡ has_address (map person members.now) address.now }
{
    for member in members {
        if member.address.as_str() == address {
            return true;
        }
    }
    false
}

fn copied(alloc: Global, name: &str, address: &str) -> Result<RoomMember, AllocError>
    ensures { IfOk result (λ member. person member ≡ person_of name.now address.now) }
{
    Ok(RoomMember {
        name: String::from_str(alloc, name)?,
        address: String::from_str(alloc, address)?,
    })
}
