//! A line that names a room.

ghost use Rattle.std.specs.Prelude.{◌≡◌, ◌∷◌, ◌++◌, Some, IfOk, IfSome};
ghost use Rattle.srm_rooms.specs.RoomLines.{IsLine, TakesOut, texts, value_now};

use crate::own_words::says;
use std::alloc::{AllocError, Global};

/// A line that names a room.
#[derive(Debug, Drop)]
pub struct RoomLine<'a> {
    /// The path of the room's file, as `--room` says it.
    pub file: &'a str,
    /// Who the member is, as `--me` says it: a name or a place, from 0. `None` if the line doesn't say it.
    pub me: Option<&'a str>,
    /// The other words, in their order.
    pub own: Vec<&'a str>,
}

// Some words without an option and its value.
#[derive(Drop)]
struct Parted<'a> {
    // The value, if the option stands there.
    value: Option<&'a str>,
    // The other words.
    others: Vec<&'a str>,
}

// The value of an option, and the words behind it.
#[derive(Drop)]
struct Found<'a, 'b> {
    value: &'a str,
    behind: &'b [&'a str],
}

/// Takes the room and the member out of a line. Returns `None` if it names no room, or asks for help. A second `--room` or `--me` stays among the line's other words. Fails only if
/// out of memory.
#[tactic(auto, using(crate::proofs::Lines::is_line))]
pub fn room_line<'a>(alloc: Global, words: &[&'a str]) -> Result<Option<RoomLine<'a>>, AllocError>
    ensures { IfOk result (λ line. IfSome line (λ l. IsLine (texts words.now) l.file.now (value_now l.me) (texts l.own.items))) }
{
    if !says(words, "--room") || asks_for_help(words) {
        return Ok(None);
    }
    let Parted { value, others } = split(alloc, "--room", words)?;
    let Some(file) = value else {
        return Ok(None);
    };
    let Parted {
        value: me,
        others: own,
    } = split(alloc, "--me", others.as_slice())?;
    Ok(Some(RoomLine { file, me, own }))
}

fn asks_for_help(words: &[&str]) -> bool {
    words.iter().any(|word| *word == "--help" || *word == "-h")
}

// Takes the first of this option out of some words.
#[tactic(auto, using(crate::proofs::Lines::takes_on))]
fn split<'a>(alloc: Global, option: &str, words: &[&'a str]) -> Result<Parted<'a>, AllocError>
    ensures { IfOk result (λ s. TakesOut option.now (texts words.now) (value_now s.value) (texts s.others.items)) }
{
    let mut others = Vec::new(alloc);
    let mut rest = words;
    while let [word, behind @ ..] = rest {
        if let Some(found) = found_in(option, rest) {
            others.extend_from_slice(found.behind)?;
            return Ok(Parted {
                value: Some(found.value),
                others,
            });
        }
        others.push(*word)?;
        rest = behind;
    }
    Ok(Parted {
        value: None,
        others,
    })
}

// Returns the value of an option, if the first word is the option.
fn found_in<'a, 'b>(option: &str, words: &'b [&'a str]) -> Option<Found<'a, 'b>>
    ensures { IfSome result (λ f. TakesOut option.now (texts words.now) (Some f.value.now) (texts f.behind.now)) }
{
    let Some(first) = next_of(words) else {
        return None;
    };
    value_of(option, first.value, first.behind)
}

// Returns the value of an option, if this word is the option.
#[tactic(auto, using(crate::proofs::Lines::takes_two, crate::proofs::Lines::takes_one))]
fn value_of<'a, 'b>(option: &str, word: &'a str, behind: &'b [&'a str]) -> Option<Found<'a, 'b>>
    ensures { IfSome result (λ f. TakesOut option.now (word.now ∷ texts behind.now) (Some f.value.now) (texts f.behind.now)) }
{
    if word == option {
        next_of(behind)
    } else {
        value_in(option, word, behind)
    }
}

// Returns the first word as a value.
fn next_of<'a, 'b>(words: &'b [&'a str]) -> Option<Found<'a, 'b>>
    ensures { IfSome result (λ f. texts words.now ≡ f.value.now ∷ texts f.behind.now) }
{
    match words {
        [value, behind @ ..] => Some(Found {
            value: *value,
            behind,
        }),
        [] => None,
    }
}

// Returns the value that stands behind `=`, if the option stands before it.
fn value_in<'a, 'b>(option: &str, word: &'a str, behind: &'b [&'a str]) -> Option<Found<'a, 'b>>
    ensures value { IfSome result (λ f. word.now ≡ option.now ++ 61 ∷ f.value.now) }
    ensures behind { IfSome result (λ f. texts f.behind.now ≡ texts behind.now) }
{
    match word.split_once('=') {
        Some((name, value)) => {
            if name == option {
                Some(Found { value, behind })
            } else {
                None
            }
        }
        None => None,
    }
}
