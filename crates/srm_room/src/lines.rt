//! In which line of a room's file a fault is.

use crate::fault::Fault;
use crate::field::{Field, Place};
use std::ops::Range;

// What stands in the line that a fault is in.
#[derive(Clone, Copy)]
enum Sought {
    // This key.
    Key(Field),
    // A key that its table hasn't.
    Unknown,
    // The header of the table.
    Header,
}

/// Returns the line that a range of a text begins in, from 1.
pub(crate) fn line_at(text: &str, span: Option<Range<usize>>) -> Option<usize> {
    let mut line: usize = 1;
    for b in text.bytes().take(span?.start) {
        if b == b'\n' {
            line = line.saturating_add(1);
        }
    }
    Some(line)
}

/// Returns the line of a fault, counted from 1: the line of its key. If the key has none, it is the line of the table's header. It finds only a key or a header that has a
/// line to itself.
pub(crate) fn line_of(text: &str, fault: Fault) -> Option<usize> {
    let (place, sought) = spot_of(fault)?;
    let mut open = Place::Top;
    let mut members: usize = 0;
    let mut header = None;
    let mut number: usize = 0;
    for line in text.lines() {
        number = number.saturating_add(1);
        let line = line.trim();
        if let Some(opened) = opened(line, members) {
            open = opened;
            if let Place::Member(_) = opened {
                members = members.saturating_add(1);
            }
            if open == place {
                header = Some(number);
            }
        } else if open == place && is_sought(line, place, sought) {
            return Some(number);
        }
    }
    header
}

fn spot_of(fault: Fault) -> Option<(Place, Sought)> {
    match fault {
        Fault::NotToml | Fault::NoMember => None,
        Fault::Lacks(place, _) => Some((place, Sought::Header)),
        Fault::Wrong(Place::Top, Field::Settings) => Some((Place::Settings, Sought::Header)),
        Fault::Wrong(place, field) => Some((place, Sought::Key(field))),
        Fault::KeyLength => Some((Place::Top, Sought::Key(Field::Key))),
        Fault::TooMany => Some((Place::Member(32), Sought::Header)),
        Fault::Name(member) | Fault::NameTwice(member) => {
            Some((Place::Member(member), Sought::Key(Field::Name)))
        }
        Fault::Address(member) | Fault::AddressTwice(member) => {
            Some((Place::Member(member), Sought::Key(Field::Address)))
        }
        Fault::Unknown(place) => Some((place, Sought::Unknown)),
    }
}

// Returns which table a line opens, if it opens one.
fn opened(line: &str, members: usize) -> Option<Place> {
    match line {
        "[[member]]" => Some(Place::Member(members)),
        "[settings]" => Some(Place::Settings),
        _ => None,
    }
}

fn is_sought(line: &str, place: Place, sought: Sought) -> bool {
    match (key_in(line), sought) {
        (Some(key), Sought::Key(field)) => key == field.key(),
        (Some(key), Sought::Unknown) => !is_known(place, key),
        _ => false,
    }
}

fn key_in(line: &str) -> Option<&str> {
    match line.split_once('=') {
        Some((key, _)) if !key.starts_with('#') => Some(key.trim()),
        _ => None,
    }
}

fn is_known(place: Place, key: &str) -> bool {
    match place {
        Place::Top => matches!(key, "ringyew" | "session" | "key" | "member" | "settings"),
        Place::Member(_) => matches!(key, "name" | "address"),
        Place::Settings => matches!(
            key,
            "waits" | "least-distance" | "rate" | "depth" | "linger" | "most-missing"
        ),
    }
}
