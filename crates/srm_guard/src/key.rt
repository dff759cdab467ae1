//! The key that the members of a session share.

ghost use Rattle.std.specs.Prelude.{◌≡◌, ◌↔◌, ◌≤◌, ◌-◌, ℕ, [], ◌∷◌, ◌++◌, List, length, take, vec_len, IsTrue, IsSome, IfSome, IfOk, MatchOption};
ghost use Rattle.srm_guard.specs.Tags.{HasNoTag, HasOldTag, label, old_tag_of, tag_of, tagged};

use crate::hmac::Pads;
use std::alloc::Global;
use std::io;
use std::io::{ErrorKind, Read};
use std::marker::Model;
use thiserror::Error;

/// Bytes of a tag: 16, behind each datagram.
pub const TAG_BYTES: usize = 16;

/// Bytes of a key, at least and at most.
const SHORTEST: usize = 16;

const LONGEST: usize = 1_024;

/// What stands first as a tag is made, so that no other use of the key makes the same tag.
const LABEL: [u8; 16] = *b"ringyew-numbered";

/// The label of an older version, whose tag covers the datagram alone, and stands alone behind it.
const OLD_LABEL: [u8; 16] = *b"ringyew-datagram";

/// The key that the members of a session share: 16 to 1,024 bytes, best 32 random ones. Only who has the key can make a datagram's tag.
#[derive(Drop)]
pub struct Key {
    bytes: Vec<u8>,
    pads: Pads,
}

impl Model for Key {
    ghost use Rattle.std.specs.Prelude.{◌≡◌, List, ℕ};
    ghost use Rattle.srm_guard.specs.Tags.{key_block, padded};

    ghost Value = { List ℕ };

    ghost view = { λ k. k.bytes.items };

    ghost invariant = { λ k. (k.pads.inner ≡ padded (key_block k.bytes.items) 0x36) × (k.pads.outer ≡ padded (key_block k.bytes.items) 0x5c) };
}

impl Key {
    /// Makes a key of these bytes. Returns `None` unless there are 16 to 1,024.
    pub fn new(bytes: Vec<u8>) -> Option<Key>
        ensures fits { IsSome result ↔ ((16 ≤ vec_len bytes) × (vec_len bytes ≤ 1024)) }
        ensures value { IfSome result (λ key. key ≡ bytes.items) }
    {
        if bytes.len() < SHORTEST || bytes.len() > LONGEST {
            return None;
        }
        let pads = Pads::new(bytes.as_slice());
        Some(Key { bytes, pads })
    }

    /// Returns the tag of bytes that go to the member with this number: the first 16 bytes of the HMAC-SHA256 of `ringyew-numbered`, the number in a byte, and the bytes.
    pub fn tag(&self, to: u8, bytes: &[u8]) -> [u8; 16]
        ensures { result ≡ tag_of self.now to bytes.now }
    {
        first_half(&self.pads.code(&labelled(to), bytes))
    }

    /// Returns how many of these bytes stand before their tag, if the right one for this member stands at their end, and else `None`. It compares all bytes of the tag, so
    /// the time tells nothing of where they differ.
    pub fn open(&self, to: u8, bytes: &[u8]) -> Option<usize>
        ensures { MatchOption result (HasNoTag self.now to bytes.now) (λ count. (count ≤ length bytes.now) × (count ≡ length bytes.now - 16) × (bytes.now ≡ tagged self.now to (take count bytes.now))) }
    {
        if bytes.len() < TAG_BYTES {
            return None;
        }
        let count = bytes.len() - TAG_BYTES;
        let (text, tag) = bytes.split_at(count);
        if is_same(&self.tag(to, text), tag) {
            Some(count)
        } else {
            None
        }
    }

    /// Returns whether an older version with this key sent these bytes. It takes as long as [`open`](Key::open).
    pub(crate) fn has_old_tag(&self, bytes: &[u8]) -> bool
        ensures { IsTrue result ↔ HasOldTag self.now bytes.now }
    {
        if bytes.len() < TAG_BYTES {
            return false;
        }
        let (text, tag) = bytes.split_at(bytes.len() - TAG_BYTES);
        is_same(&self.old_tag(text), tag)
    }

    // Returns the tag that an older version gave these bytes.
    fn old_tag(&self, datagram: &[u8]) -> [u8; 16]
        ensures { result ≡ old_tag_of self.now datagram.now }
    {
        first_half(&self.pads.code(&OLD_LABEL, datagram))
    }
}

// Returns the label and a member's number.
fn labelled(to: u8) -> [u8; 17]
    ensures { result ≡ label ++ to ∷ [] }
{
    let mut text = [to; 17];
    text[..LABEL.len()].copy_from_slice(&LABEL);
    text
}

fn first_half(code: &[u8; 32]) -> [u8; 16]
    ensures { result ≡ take 16 code.now }
{
    let mut tag = [0; 16];
    tag.copy_from_slice(&code[..TAG_BYTES]);
    tag
}

// Returns whether two lists of bytes are the same, after looking at each byte.
fn is_same(one: &[u8], other: &[u8]) -> bool
    ensures { IsTrue result ↔ (one.now ≡ other.now) }
{
    if one.len() != other.len() {
        return false;
    }
    let mut differing = 0;
    for index in 0..one.len() {
        differing |= one[index] ^ other[index];
    }
    differing == 0
}

/// Why a key can't be read.
#[derive(Debug, Drop, Error)]
pub enum KeyFault {
    /// The reader failed.
    #[error("can't be read: {0}")]
    Unreadable(io::Error),
    /// It has fewer than 16 bytes, or more than 1,024.
    #[error("a key has 16 to 1,024 bytes")]
    Length,
    /// Out of memory.
    #[error("out of memory")]
    Memory,
}

impl Key {
    /// Reads a key: all bytes to the reader's end, a last line end too. It reads at most 1,025 bytes. Fails with `Unreadable` if the reader fails, `Length` unless there are 16 to
    /// 1,024 bytes, and `Memory` if out of memory.
    pub fn read<I: Read>(alloc: Global, reader: &mut I) -> Result<Key, KeyFault>
        ensures fits { IfOk result (λ key. (16 ≤ length key) × (length key ≤ 1024)) }
        ensures whole { IfOk result (λ key. IfSome (I.remaining reader.old) (λ bytes. key ≡ bytes)) }
    {
        let mut bytes = Vec::new(alloc);
        match reader.take(LONGEST as u64 + 1).read_to_end(&mut bytes) {
            Ok(_) => match Key::new(bytes) {
                Some(key) => Ok(key),
                None => Err(KeyFault::Length),
            },
            Err(error) if error.kind() == ErrorKind::OutOfMemory => Err(KeyFault::Memory),
            Err(error) => Err(KeyFault::Unreadable(error)),
        }
    }
}
