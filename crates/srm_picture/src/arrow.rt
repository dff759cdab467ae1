//! Datagrams on their way.

use crate::point::Point;
use srm_entries::DatagramKind;

/// The sending of a datagram.
#[derive(Clone, Copy, Debug, PartialEq, Eq)]
pub struct Launch {
    /// The entry that sent the datagram.
    pub from: Point,
    /// Its place from 0 among the datagrams that this entry sent.
    pub nth: usize,
    /// The kind of the datagram.
    pub kind: DatagramKind,
}

/// The arrival of a datagram at a member.
#[derive(Clone, Copy, Debug, PartialEq, Eq)]
pub struct Arrival {
    /// Its number, from 0 in the order of sending.
    pub number: usize,
    /// The entry that heard it.
    pub at: Point,
    /// Whether the member accepted it, and didn't ignore it.
    pub accepted: bool,
}

/// Where an arrow ends.
#[derive(Clone, Copy, Debug, PartialEq, Eq)]
pub enum ArrowEnd {
    /// At this entry, which accepted it.
    Accepted(Point),
    /// At this entry, which ignored it.
    Ignored(Point),
    /// It was never delivered.
    Lost,
}

/// The way of a datagram from its sender to one member that it came to, or to nobody.
#[derive(Clone, Copy, Debug, PartialEq, Eq)]
pub struct Arrow {
    /// Its number, from 0 in the order of sending.
    pub number: usize,
    /// Where it begins.
    pub launch: Launch,
    /// Where it ends.
    pub end: ArrowEnd,
}
