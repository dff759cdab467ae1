//! A member's record: its file, how it begins and how it ends.

ghost use Rattle.std.specs.Prelude.{◌≡◌, true, is_some, IfOk};
ghost use Rattle.srm_record.specs.Begun.{IsRecorded};
ghost use Rattle.srm_record.specs.Takes.{lent};
ghost use Rattle.srm_member.specs.TakenText.{lists_of};

use crate::fault::MemberFault;
use crate::noting::Keeping;
use srm_agent::Entry;
use srm_frames::Beginning;
use srm_names::{PAGES, PageMsg};
use srm_node::Worked;
use srm_options::NodeOptions;
use srm_record::{Ended, RecordFailure, Written};
use srm_world::{History, Past};
use std::alloc::{AllocError, Global};
use std::fs::{OpenFile, OpenOptions};
use std::io::Write;
use std::os::unix::fs::OpenOptionsExt;
use std::rt::Files;
use std::sync::Arc;
use std::time::{SystemTime, UNIX_EPOCH};
use std::{fs, time};

/// Who owns the record may read and write it, and nobody else: it has every stroke.
const MODE: u32 = 0o600;

/// Makes the file of a member's record, if its options name one. Returns `None` if they name none. Fails with [`MemberFault::Unrecorded`] and the cause if the file can't
/// be made, as when there is one with this path, and if out of memory.
pub fn open_record<R: Files>(
    rt: &R,
    alloc: Global,
    options: &NodeOptions,
) -> Result<Option<R::File>, MemberFault>
    ensures { IfOk result (λ file. is_some file ≡ is_some options.now.«record») }
{
    let Some(path) = &options.record else {
        return Ok(None);
    };
    let mut how = OpenOptions::new();
    how.write(true).create_new(true).mode(MODE);
    match how.open(rt, path.as_str()) {
        Ok(file) => Ok(Some(file)),
        Err(error) => Err(MemberFault::of_opening(alloc, path.as_str(), error)),
    }
}

/// Makes the note of a record whose file was made at this path, if one was. Where memory is out for it, the file is removed.
pub(crate) fn keep_note<R: Files>(
    rt: &R,
    alloc: Global,
    path: Option<String>,
    has_file: bool,
) -> Result<Keeping, MemberFault> {
    let Some(path) = path else {
        return Ok(None);
    };
    if !has_file {
        return Ok(None);
    }
    match Arc::new(alloc, RecordFailure::new(path)) {
        Ok(failure) => Ok(Some(failure)),
        Err(failed) => {
            let _ = fs::remove_file(rt, failed.value.path());
            Err(MemberFault::from(AllocError))
        }
    }
}

/// Removes the file that was made for the record of a member that isn't run. One that can't be removed stays.
pub(crate) fn remove_record<R: Files>(rt: &R, keeping: &Keeping) {
    if let Some(failure) = keeping {
        let _ = fs::remove_file(rt, failure.path());
    }
}

/// Returns how the record of a member with these options begins. The member is made at moment 0 of its clock.
pub fn beginning_of<R: time::Clock>(rt: &R, options: &NodeOptions) -> Beginning
    ensures config { result.config ≡ options.now.config }
    ensures made { result.made ≡ 0 }
    ensures seed { result.seed ≡ options.now.seed }
{
    Beginning {
        config: options.config,
        made: 0,
        seed: options.seed,
        wall: wall_micros(rt),
    }
}

// The time of day in microseconds since 1970, or 0 if the system can't tell it.
fn wall_micros<R: time::Clock>(rt: &R) -> u64 {
    let Ok(now) = SystemTime::now(rt) else {
        return 0;
    };
    match now.duration_since(UNIX_EPOCH) {
        Ok(time) => u64::try_from(time.as_micros()).unwrap_or(0),
        Err(_) => 0,
    }
}

/// How a member's record ended.
#[derive(Drop)]
pub struct Recorded<F: Write + Drop> {
    /// Whether the file has the whole record, and the system says that it stored it; true if there is no file.
    pub whole: bool,
    /// The file, if there is one; `None` too if there are more workers than page slots.
    pub file: Option<F>,
}

/// Ends a member's record with what its page workers took, by page slot, and asks the system to store it. Returns the file, if there is one, and whether it has the whole record: how the
/// member began, each call of its journal, what was taken, and that this is all. It hasn't if there are more workers than page slots. Fails if out of memory for a list of the workers'
/// lists; the file has a front of the record then.
#[tactic(auto, using(crate::proofs::Storing::recorded_as))]
pub fn end_record<F: Write + OpenFile + Drop, P: Past<Entry> + Drop>(
    alloc: Global,
    history: History<Written<F, P>>,
    worked: &[Worked],
) -> Result<Recorded<F>, AllocError>
    ensures { IfOk result (λ r. r.whole ≡ true → IsRecorded F.contents history.begins history.journal.entries (lists_of worked.now) r.file) }
{
    let (_, past) = history.into_parts();
    let taken = lists_of(alloc, worked)?;
    // A record has at most one list of each page slot.
    if taken.len() > usize::from(PAGES) {
        return Ok(Recorded {
            whole: false,
            file: None,
        });
    }
    let Ended {
        whole,
        file,
        failure,
        ..
    } = past.end(taken.as_slice());
    let whole = whole && is_stored(&file, &failure);
    Ok(Recorded { whole, file })
}

// Whether the system says that it stored the file, if there is one. Else the cause is noted.
fn is_stored<F: OpenFile>(file: &Option<F>, keeping: &Keeping) -> bool {
    let Some(file) = file else {
        return true;
    };
    match file.sync_all() {
        Ok(()) => true,
        Err(error) => {
            if let Some(failure) = keeping {
                failure.note(&error);
            }
            false
        }
    }
}

// What each worker took.
#[tactic(auto, using(crate::proofs::Storing::lent_more))]
fn lists_of<'a>(alloc: Global, worked: &'a [Worked]) -> Result<Vec<&'a [PageMsg]>, AllocError>
    ensures { IfOk result (λ lists. lent lists.items ≡ lists_of worked.now) }
{
    let mut lists = Vec::new(alloc);
    for worker in worked {
        lists
            .push(worker.list.as_slice())
            .map_err(AllocError::from)?;
    }
    Ok(lists)
}
