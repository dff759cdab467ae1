//! The words that a line with a room stands for.

ghost use Rattle.std.specs.Prelude.{◌≡◌, ◌++◌, ◌∷◌, [], map, IfOk, OnOk};
ghost use Rattle.srm_room.specs.Rooms.{person};
ghost use Rattle.srm_options.specs.MemberNames.{said};
ghost use Rattle.srm_rooms.specs.RoomLines.{addresses_of, texts, numbered, usual, shared_words, waits_words, usual_words, linger_words, words_of};

use crate::own_words::says;
use srm_names::Member;
use srm_room::{Room, RoomMember, RoomSettings};
use std::alloc::{AllocError, Global};

/// Returns the words that a line with a room stands for: what all members share, with this member's place; the rate, the depth, how many drawops may be missing, and of a live
/// member how long it lingers, each unless the line's other words say it; the members' addresses; and the line's other words. Fails only if out of memory.
#[tactic(auto, unfolding(crate::specs::RoomLines::words_of))]
pub fn words_in_room(
    alloc: Global,
    room: &Room,
    me: Member,
    live: bool,
    own: &[&str],
) -> Result<Vec<String>, AllocError>
    ensures { IfOk result (λ words. said words.items ≡ words_of room.now me live (texts own.now)) }
{
    let mut words = Vec::new(alloc);
    push_shared(alloc, &mut words, room, me)?;
    push_usual(alloc, &mut words, &room.settings(), live, own)?;
    push_addresses(alloc, &mut words, room.members())?;
    push_own(alloc, &mut words, own)?;
    Ok(words)
}

// What all members share, and the member's place.
fn push_shared(
    alloc: Global,
    words: &mut Vec<String>,
    room: &Room,
    me: Member,
) -> Result<(), AllocError>
    ensures { OnOk result (said words.new.items ≡ said words.old.items ++ shared_words room.now me) }
{
    let settings = room.settings();
    push_number(alloc, words, "--session", room.session())?;
    push_number(alloc, words, "--me", u32::from(me.number()))?;
    push_waits(alloc, words, &settings)?;
    push_number(alloc, words, "--least-distance", settings.least_distance)
}

fn push_waits(
    alloc: Global,
    words: &mut Vec<String>,
    settings: &RoomSettings,
) -> Result<(), AllocError>
    ensures { OnOk result (said words.new.items ≡ said words.old.items ++ waits_words settings.now) }
{
    push(alloc, words, "--waits")?;
    let (c1, c2, d1, d2) = (settings.c1, settings.c2, settings.d1, settings.d2);
    words.push(format!(in alloc; "{c1},{c2},{d1},{d2}")?)?;
    Ok(())
}

// What is usual, unless the line's other words say it.
#[tactic(auto, unfolding(crate::specs::RoomLines::usual_words))]
fn push_usual(
    alloc: Global,
    words: &mut Vec<String>,
    settings: &RoomSettings,
    live: bool,
    own: &[&str],
) -> Result<(), AllocError>
    ensures { OnOk result (said words.new.items ≡ said words.old.items ++ usual_words settings.now live (texts own.now)) }
{
    push_unless(alloc, words, own, "--rate", settings.rate)?;
    push_unless(alloc, words, own, "--depth", settings.depth)?;
    push_linger(alloc, words, settings, live, own)?;
    push_unless(alloc, words, own, "--most-missing", settings.most_missing)
}

fn push_linger(
    alloc: Global,
    words: &mut Vec<String>,
    settings: &RoomSettings,
    live: bool,
    own: &[&str],
) -> Result<(), AllocError>
    ensures { OnOk result (said words.new.items ≡ said words.old.items ++ linger_words settings.now live (texts own.now)) }
{
    if live {
        push_unless(alloc, words, own, "--linger", settings.linger)
    } else {
        Ok(())
    }
}

fn push_unless(
    alloc: Global,
    words: &mut Vec<String>,
    own: &[&str],
    option: &str,
    number: u32,
) -> Result<(), AllocError>
    ensures { OnOk result (said words.new.items ≡ said words.old.items ++ usual (texts own.now) option.now number) }
{
    if says(own, option) {
        Ok(())
    } else {
        push_number(alloc, words, option, number)
    }
}

fn push_number(
    alloc: Global,
    words: &mut Vec<String>,
    option: &str,
    number: u32,
) -> Result<(), AllocError>
    ensures { OnOk result (said words.new.items ≡ said words.old.items ++ numbered option.now number) }
{
    push(alloc, words, option)?;
    words.push(format!(in alloc; "{number}")?)?;
    Ok(())
}

fn push_addresses(
    alloc: Global,
    words: &mut Vec<String>,
    members: &[RoomMember],
) -> Result<(), AllocError>
    ensures { OnOk result (said words.new.items ≡ said words.old.items ++ addresses_of (map person members.now)) }
{
    for member in members {
        push(alloc, words, member.address.as_str())?;
    }
    Ok(())
}

fn push_own(alloc: Global, words: &mut Vec<String>, own: &[&str]) -> Result<(), AllocError>
    ensures { OnOk result (said words.new.items ≡ said words.old.items ++ texts own.now) }
{
    for word in own {
        push(alloc, words, word)?;
    }
    Ok(())
}

fn push(alloc: Global, words: &mut Vec<String>, word: &str) -> Result<(), AllocError>
    ensures { OnOk result (said words.new.items ≡ said words.old.items ++ word.now ∷ []) }
{
    words.push(String::from_str(alloc, word)?)?;
    Ok(())
}
