//! The key of a member.

ghost use Rattle.std.specs.Prelude.{◌≡◌, is_some, IfOk, IfSome};
ghost use Rattle.srm_guarded.specs.Keying.{IsAllOf, IsKeyOf, IsKeyRead};

use srm_guard::{Key, KeyFault};
use srm_options::{GuardOptions, KeySource, SystemCause};
use std::alloc::{AllocError, Global};
use std::fs::File;
use std::io::{ErrorKind, Read};
use std::rt::Files;
use thiserror::Error;

/// Why a member can't have its key. Its text is the line that standard error gets.
#[derive(Debug, Drop, PartialEq, Eq, Error)]
pub enum KeyFileFault {
    /// The file at this path can't be opened or read, for this cause.
    #[error("srm: cannot read key {0}: {cause}", cause = SystemCause::of_file(*.1))]
    Unreadable(String, ErrorKind),
    /// The file at this path doesn't have 16 to 1,024 bytes.
    #[error("srm: cannot use key {0}: not 16 to 1024 bytes")]
    Length(String),
    /// The key of the member's room doesn't have 16 to 1,024 bytes. A room that was read always has.
    #[error("srm: cannot use the room's key: not 16 to 1024 bytes: make a new room")]
    RoomLength,
    /// The system doesn't tell the time of day, or tells one before 1970.
    #[error("srm: cannot use a key without the time of day: set the clock")]
    NoTime,
    /// Out of memory.
    #[error("srm: memory")]
    Memory,
}

impl From<AllocError> for KeyFileFault {
    fn from(_error: AllocError) -> KeyFileFault {
        KeyFileFault::Memory
    }
}

#[tactic(auto, using(crate::proofs::Keying::key_of_source, crate::proofs::Keying::no_key))]
/// Returns the key of a member, 16 to 1,024 bytes: all bytes of the file that the options name, or those that its room has. Returns `None` if the options name neither.
///
/// Fails with [`KeyFileFault::Unreadable`] and the cause if the file can't be opened or read, [`KeyFileFault::Length`] or [`KeyFileFault::RoomLength`] if the key has another length, and
/// [`KeyFileFault::Memory`] if out of memory. It reads at most 1,025 bytes of a file.
pub fn read_key<R: Files>(
    rt: &R,
    alloc: Global,
    guard: &GuardOptions,
) -> Result<Option<Key>, KeyFileFault>
    ensures asked { IfOk result (λ key. is_some key ≡ is_some guard.now.key) }
    ensures whole { IfOk result (λ key. IsKeyRead R.File.remaining guard.now.key key) }
{
    let Some(source) = &guard.key else {
        return Ok(None);
    };
    match read_source(rt, alloc, source) {
        Ok(key) => Ok(Some(key)),
        Err(fault) => Err(fault),
    }
}

// Returns the key that a source has.
fn read_source<R: Files>(rt: &R, alloc: Global, source: &KeySource) -> Result<Key, KeyFileFault>
    ensures { IfOk result (λ key. IsKeyOf R.File.remaining source.now key) }
{
    match source {
        KeySource::File(path) => read_file(rt, alloc, path.as_str()),
        KeySource::Room(bytes) => key_of(alloc, bytes.as_slice()),
    }
}

// Returns the key that a room has.
fn key_of(alloc: Global, bytes: &[u8]) -> Result<Key, KeyFileFault>
    ensures { IfOk result (λ key. key ≡ bytes.now) }
{
    match Key::new(Vec::from_slice(alloc, bytes)?) {
        Some(key) => Ok(key),
        None => Err(KeyFileFault::RoomLength),
    }
}

#[tactic(auto, using(crate::proofs::Keying::all_of_file))]
// Reads the key from the file at this path.
fn read_file<R: Files>(rt: &R, alloc: Global, path: &str) -> Result<Key, KeyFileFault>
    ensures { IfOk result (λ key. IsAllOf R.File.remaining key) }
{
    match File::open(rt, path) {
        Ok(file) => read_open(alloc, path, file),
        Err(error) => Err(told(alloc, path, KeyFault::Unreadable(error))),
    }
}

// Reads the key from a file that was opened.
fn read_open<I: Read + Drop>(alloc: Global, path: &str, file: I) -> Result<Key, KeyFileFault>
    ensures { IfOk result (λ key. IfSome (I.remaining file) (λ all. key ≡ all)) }
{
    let mut file = file;
    match Key::read(alloc, &mut file) {
        Ok(key) => Ok(key),
        Err(fault) => Err(told(alloc, path, fault)),
    }
}

// Returns a fault with its path.
fn told(alloc: Global, path: &str, fault: KeyFault) -> KeyFileFault {
    let Ok(path) = String::from_str(alloc, path) else {
        return KeyFileFault::Memory;
    };
    match fault {
        KeyFault::Unreadable(error) => match error.kind() {
            ErrorKind::OutOfMemory => KeyFileFault::Memory,
            cause => KeyFileFault::Unreadable(path, cause),
        },
        KeyFault::Length => KeyFileFault::Length(path),
        KeyFault::Memory => KeyFileFault::Memory,
    }
}
