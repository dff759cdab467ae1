//! What a member puts behind each datagram, and what it lets through of those that come.

ghost use Rattle.std.specs.Prelude.{◌≡◌, ◌≢◌, ◌+◌, ◌≤◌, ℕ, [], ◌++◌, length, take, true, IfOk, MatchBool, MatchOption};
ghost use Rattle.std.specs.Int.{w64, from_be_bytes};
ghost use Rattle.srm_window.specs.Senders.{admits_of, numbered, windows_after};
ghost use Rattle.srm_guard.specs.Seals.{HasNoNumber, HasNoSeal, IsNewSeal, IsNumber, Opens, next_to, number_at, one_sent, sealed, with_number};

use crate::key::{Key, TAG_BYTES};
use srm_names::{MEMBERS, Member};
use srm_window::Windows;
use std::alloc::{AllocError, Global};
use std::marker::Model;

/// Bytes of a number: the sender in one, its counter in eight.
const NUMBER_BYTES: usize = 9;

/// Bytes behind a datagram: its number, and the tag of both.
pub const TRAILER_BYTES: usize = 25;

/// What a member knows to seal and open datagrams: the key, its own number, the counters of its next datagrams, and which counters of others came.
///
/// Each datagram to a member has a counter one above the last one to it. The tag covers who sends it, to whom, and the counter. So a datagram that was sent to another
/// member doesn't open here, and one that came before isn't passed on again.
#[derive(Drop)]
pub struct Seal {
    key: Key,
    me: Member,
    // The counter of the next datagram to each member.
    next: Vec<u64>,
    windows: Windows,
}

/// What bytes that came open to.
#[derive(Clone, Copy, Debug, PartialEq, Eq)]
pub enum Opened {
    /// Nobody with the key sealed them for this member.
    Foreign,
    /// Nobody did, and they have the tag of an older version by this key.
    Older,
    /// Their counter came before, or is behind the window.
    Again,
    /// A datagram of so many bytes at their front.
    Datagram(usize),
}

// A number, and how many bytes stand before it.
#[derive(Drop)]
struct Number {
    length: usize,
    sender: Member,
    counter: u64,
}

impl Model for Seal {
    ghost use Rattle.std.specs.Prelude.{◌≡◌, length};
    ghost use Rattle.srm_guard.specs.Seals.{SealView};

    ghost Value = { SealView };

    ghost view = { λ s. record { key = s.key; me = s.me; next = s.next.items; windows = s.windows } };

    ghost invariant = { λ s. length s.next.items ≡ 32 };
}

impl Seal {
    /// Makes the seal of a member that has sent nothing and heard nothing since it started. Its counters begin at `start`, which must be above all that it used under this key
    /// before, or others drop what it sends: pass the time of day in microseconds. Allocates some 70 KiB, and fails only if out of memory.
    pub fn new(alloc: Global, key: Key, me: Member, start: u64) -> Result<Seal, AllocError>
        ensures { IfOk result (λ s. IsNewSeal key me start s) }
    {
        let next = vec![in alloc; start; MEMBERS as usize]?;
        let windows = Windows::new(alloc)?;
        Ok(Seal {
            key,
            me,
            next,
            windows,
        })
    }

    /// Puts a datagram to a member with its number and tag to the front of a room, and counts it: [`TRAILER_BYTES`] more bytes than it has. Returns false, and changes no counter,
    /// if all counters up to 2^64 - 2 were used. Takes no memory.
    pub fn close(&mut self, to: Member, datagram: &[u8], room: &mut [u8]) -> bool
        requires { length datagram.now + 25 ≤ length room.old }
        ensures { MatchBool result ((take (length datagram.now + 25) room.new ≡ sealed self.old.key to (numbered self.old.me (next_to to self.old)) datagram.now) × (next_to to self.old ≢ u64.MAX) × (self.new ≡ one_sent to self.old))
            ((self.new ≡ self.old) × (next_to to self.old ≡ u64.MAX) × (room.new ≡ room.old)) }
    {
        let Some(counter) = self.count(to) else {
            return false;
        };
        let end = datagram.len() + NUMBER_BYTES;
        put_number(room, datagram, self.me, counter);
        let tag = self.key.tag(to.number(), &room[..end]);
        put_tag(room, end, &tag);
        true
    }

    // Returns the next counter to a member, and counts it.
    fn count(&mut self, to: Member) -> Option<u64>
        ensures { MatchOption result ((self.new ≡ self.old) × (next_to to self.old ≡ u64.MAX)) (λ counter. (counter ≡ next_to to self.old) × (next_to to self.old ≢ u64.MAX) × (self.new ≡ one_sent to self.old)) }
    {
        let place = to.index();
        let counter = self.next[place];
        if counter == u64::MAX {
            return None;
        }
        self.next[place] = counter + 1;
        Some(counter)
    }

    /// Opens bytes that came, whatever they are, and notes their number if somebody with the key sealed them for this member. Of these only what opens to [`Opened::Datagram`] is to be
    /// passed on. Takes no memory.
    pub fn open(&mut self, bytes: &[u8]) -> Opened
        ensures { Opens result bytes.now self.old self.new }
    {
        let Some(end) = self.key.open(self.me.number(), bytes) else {
            return self.foreign(bytes);
        };
        let Some(number) = number_at(&bytes[..end]) else {
            return self.foreign(bytes);
        };
        if self.admit(number.sender, number.counter) {
            Opened::Datagram(number.length)
        } else {
            Opened::Again
        }
    }

    // Returns what bytes are that nobody sealed for this member.
    fn foreign(&self, bytes: &[u8]) -> Opened
        requires { HasNoSeal self.now.key self.now.me bytes.now }
        ensures { Opens result bytes.now self.now self.now }
    {
        if self.key.has_old_tag(bytes) {
            Opened::Older
        } else {
            Opened::Foreign
        }
    }

    // Notes a sender's counter, and returns whether it is new.
    fn admit(&mut self, sender: Member, counter: u64) -> bool
        ensures admits { result ≡ admits_of (numbered sender counter) self.old.windows }
        ensures noted { self.new ≡ record self.old { windows = windows_after (numbered sender counter) self.old.windows } }
    {
        self.windows.admit(sender, counter)
    }
}

#[tactic(auto, using(crate::proofs::Numbering::no_number_short, crate::proofs::Numbering::no_number_stranger))]
// Returns how many of these bytes stand before the number at their end, and the number.
fn number_at(text: &[u8]) -> Option<Number>
    ensures { MatchOption result (HasNoNumber text.now) (λ found. (found.length ≤ length text.now) × (text.now ≡ with_number (numbered found.sender found.counter) (take found.length text.now)) × (numbered found.sender found.counter ≡ number_at text.now) × IsNumber (number_at text.now)) }
{
    if text.len() < NUMBER_BYTES {
        return None;
    }
    let length = text.len() - NUMBER_BYTES;
    let Some(sender) = Member::new(text[length]) else {
        return None;
    };
    let counter = counter_in(&text[length + 1..]);
    Some(Number {
        length,
        sender,
        counter,
    })
}

fn counter_in(bytes: &[u8]) -> u64
    requires { length bytes.now ≡ 8 }
    ensures { result ≡ from_be_bytes w64 bytes.now }
{
    let mut counter = [0; 8];
    counter.copy_from_slice(bytes);
    u64::from_be_bytes(counter)
}

// Puts a datagram and its number to the front of a room.
fn put_number(room: &mut [u8], datagram: &[u8], sender: Member, counter: u64)
    requires { length datagram.now + 9 ≤ length room.old }
    ensures { take (length datagram.now + 9) room.new ≡ with_number (numbered sender counter) datagram.now }
{
    let end = datagram.len();
    let bytes = counter.to_be_bytes();
    let sender = sender.number();
    room[..end].copy_from_slice(datagram);
    room[end] = sender;
    room[end + 1..end + NUMBER_BYTES].copy_from_slice(&bytes);
}

// Puts a tag behind the first bytes of a room.
fn put_tag(room: &mut [u8], end: usize, tag: &[u8; 16])
    requires { end + 16 ≤ length room.old }
    ensures { take (end + 16) room.new ≡ take end room.old ++ tag.now }
{
    room[end..end + TAG_BYTES].copy_from_slice(tag);
}
