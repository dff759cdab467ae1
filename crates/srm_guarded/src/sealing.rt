//! The seal that a member makes of its key.

ghost use Rattle.srm_guarded.specs.Guarding.{IsSealBy};
ghost use Rattle.std.specs.Prelude.{◌≡◌, Some, IfOk};

use crate::key_file::KeyFileFault;
use srm_guard::{Key, Seal};
use srm_names::Member;
use std::alloc::Global;
use std::time;
use std::time::{SystemTime, UNIX_EPOCH};

/// Makes the seal of a member that starts now, by this key, if there is one. Its counters begin at the time of day in microseconds: so they are above all that the member used
/// before, unless it sent more than a million datagrams a second to one member, or the clock was set back. Call it just before the member binds its address, so that no earlier
/// process of this member sends on.
///
/// Fails with [`KeyFileFault::NoTime`] if the system doesn't tell the time of day or tells one before 1970, and with [`KeyFileFault::Memory`] if there are not some 70 KiB.
/// Without a key it doesn't fail.
pub fn seal_by<C: time::Clock>(
    rt: &C,
    alloc: Global,
    key: Option<Key>,
    me: Member,
) -> Result<Option<Seal>, KeyFileFault>
    ensures { IfOk result (λ seal. IsSealBy key me seal) }
{
    let Some(key) = key else {
        return Ok(None);
    };
    let Some(start) = micros_of_the_day(rt) else {
        return Err(KeyFileFault::NoTime);
    };
    match Seal::new(alloc, key, me, start) {
        Ok(seal) => Ok(Some(seal)),
        Err(_) => Err(KeyFileFault::Memory),
    }
}

// Returns the time of day in microseconds since 1970, if the system tells one.
fn micros_of_the_day<C: time::Clock>(rt: &C) -> Option<u64> {
    let Ok(now) = SystemTime::now(rt) else {
        return None;
    };
    match now.duration_since(UNIX_EPOCH) {
        Ok(time) => u64::try_from(time.as_micros()).ok(),
        Err(_) => None,
    }
}
