//! What is told of a line with a room.

use crate::board::board_command;
use crate::mistake::Mistake;
use crate::node::{node_command, told};
use crate::reply::Reply;
use std::alloc::Global;

/// Why a line with a room is refused, before its words are read.
#[derive(Clone, Copy, Debug, PartialEq, Eq)]
pub enum RoomMistake<'a> {
    /// It has this option, but the room says that for all members.
    Shared(&'a str),
    /// It has this address, but the room has the addresses.
    Address(&'a str),
    /// It names no member.
    NoName,
}

/// Returns what is told of such a line of `srm node`, for a live member or another one.
pub fn refuse_node(alloc: Global, live: bool, mistake: RoomMistake<'_>) -> Reply {
    match node_command(alloc, live) {
        Ok(mut command) => told(alloc, &mut command, mistake_of(mistake)),
        Err(_) => Reply::Memory,
    }
}

/// Returns what is told of such a line of `srm board`.
pub fn refuse_board(alloc: Global, mistake: RoomMistake<'_>) -> Reply {
    match board_command(alloc) {
        Ok(mut command) => told(alloc, &mut command, mistake_of(mistake)),
        Err(_) => Reply::Memory,
    }
}

fn mistake_of(mistake: RoomMistake<'_>) -> Mistake<'_> {
    match mistake {
        RoomMistake::Shared(word) => Mistake::BesideRoom(word),
        RoomMistake::Address(word) => Mistake::AddressBesideRoom(word),
        RoomMistake::NoName => Mistake::NoName,
    }
}
