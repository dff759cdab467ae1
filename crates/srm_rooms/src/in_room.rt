//! The options of a line with a room.

ghost use Rattle.std.specs.Prelude.{◌≡◌, true, false, IfOk, OnOk};
ghost use Rattle.srm_options.specs.MemberNames.{said};
ghost use Rattle.srm_rooms.specs.RoomLines.{are_own, texts, words_of};
ghost use Rattle.srm_rooms.specs.InRoom.{IsInRoom, ReadsInRoom, ReadsBoardInRoom, is_live_line};

use crate::line_reader::LineReader;
use crate::own_words::find_shared;
use crate::room_words::words_in_room;
use srm_names::Member;
use srm_options::{
    BoardOptions, GuardOptions, KeySource, Names, NodeOptions, Reply, refuse_board, refuse_node,
};
use srm_room::Room;
use std::alloc::{AllocError, Global};

/// Returns the options of a line of `srm node` that names a room: those that the reader returns for the words that it stands for, with the room's key and names. `own` has the
/// line's words without the room and the member.
///
/// Fails as the reader does, with [`Reply::Wrong`] if the line says what the room says for all members, or an address, and with [`Reply::Memory`].
#[tactic(auto, using(crate::proofs::Joined::reads_in))]
pub fn read_node_in<L: LineReader<Options = NodeOptions>>(
    alloc: Global,
    reader: &L,
    own: &[&str],
    room: &Room,
    me: Member,
) -> Result<NodeOptions, Reply>
    ensures { IfOk result (λ options. ReadsInRoom (L.reads reader.now) room.now me (texts own.now) options) }
{
    let live = is_live(own);
    judge_node(alloc, live, own)?;
    let read = read_words(alloc, reader, own, room, me, live)?;
    Ok(in_room(alloc, read, room)?)
}

/// Does the same for a line of `srm board`, whose member is a live one.
#[tactic(auto, using(crate::proofs::Joined::reads_board_in))]
pub fn read_board_in<L: LineReader<Options = BoardOptions>>(
    alloc: Global,
    reader: &L,
    own: &[&str],
    room: &Room,
    me: Member,
) -> Result<BoardOptions, Reply>
    ensures { IfOk result (λ options. ReadsBoardInRoom (L.reads reader.now) room.now me (texts own.now) options) }
{
    judge_board(alloc, own)?;
    let BoardOptions {
        node,
        http,
        has_token,
    } = read_words(alloc, reader, own, room, me, true)?;
    Ok(BoardOptions {
        node: in_room(alloc, node, room)?,
        http,
        has_token,
    })
}

// Refuses a line of `srm node` that says what the room says.
fn judge_node(alloc: Global, live: bool, own: &[&str]) -> Result<(), Reply>
    ensures { OnOk result (are_own false (texts own.now) ≡ true) }
{
    match find_shared(own) {
        Ok(()) => Ok(()),
        Err(mistake) => Err(refuse_node(alloc, live, mistake)),
    }
}

// Does the same for a line of `srm board`.
fn judge_board(alloc: Global, own: &[&str]) -> Result<(), Reply>
    ensures { OnOk result (are_own false (texts own.now) ≡ true) }
{
    match find_shared(own) {
        Ok(()) => Ok(()),
        Err(mistake) => Err(refuse_board(alloc, mistake)),
    }
}

/// Returns whether these words ask for a live member.
pub fn is_live(words: &[&str]) -> bool
    ensures { result ≡ is_live_line (texts words.now) }
{
    for word in words {
        if *word == "--live" {
            return true;
        }
    }
    false
}

// Reads the words that the line stands for.
fn read_words<L: LineReader>(
    alloc: Global,
    reader: &L,
    own: &[&str],
    room: &Room,
    me: Member,
    live: bool,
) -> Result<L::Options, Reply>
    ensures { IfOk result (λ options. L.reads reader.now (words_of room.now me live (texts own.now)) options) }
{
    let words = words_in_room(alloc, room, me, live, own)?;
    let texts = texts_of(alloc, words.as_slice())?;
    reader.read(alloc, texts.as_slice())
}

fn texts_of<'a>(alloc: Global, words: &'a [String]) -> Result<Vec<&'a str>, AllocError>
    ensures { IfOk result (λ refs. texts refs.items ≡ said words.now) }
{
    let mut refs = Vec::new(alloc);
    for word in words {
        refs.push(word.as_str())?;
    }
    Ok(refs)
}

// Returns options with a room's key and names.
fn in_room(alloc: Global, read: NodeOptions, room: &Room) -> Result<NodeOptions, AllocError>
    ensures { IfOk result (IsInRoom room.now read) }
{
    let mut key = Vec::new(alloc);
    key.extend_from_slice(room.key())?;
    let names = Names::of_room(alloc, room)?;
    let NodeOptions {
        config,
        seed,
        stay,
        linger,
        turns,
        live,
        verbose,
        guard,
        record,
        addresses,
        ..
    } = read;
    let guard = GuardOptions {
        only_roster: guard.only_roster,
        key: Some(KeySource::Room(key)),
        most_missing: guard.most_missing,
    };
    Ok(NodeOptions {
        config,
        seed,
        stay,
        linger,
        turns,
        live,
        verbose,
        guard,
        record,
        names,
        addresses,
    })
}
