//! Reading the files of records.

ghost use Rattle.std.specs.Prelude.{◌≡◌, ◌+◌, length, vec_len, IfErr, IfOk, OnOk};
ghost use Rattle.srm_frames.specs.WhatIsRead.{IsRecordIn, seen};
ghost use Rattle.srm_verdicts.specs.Shown.{AreOfBytes, IsOfBytes, IsUnread};

use crate::fault::AuditFault;
use srm_frames::{Record, RecordFault, read_record};
use std::alloc::{AllocError, Global};
use std::fs;
use std::io::ErrorKind;
use std::rt::Files;

/// Reads a record from each of the files at these paths, in their order.
///
/// Fails for the first file that can't be read or is no record, and if out of memory. Reads one file at a time, whole.
#[tactic(auto, using(crate::proofs::FilesRead::none_yet))]
pub fn read_records<R: Files + AllocGlobal>(
    rt: &R,
    paths: &[&str],
) -> Result<Vec<Record>, AuditFault>
    ensures count { IfOk result (λ records. vec_len records ≡ length paths.now) }
    ensures each { IfOk result (λ records. AreOfBytes records.items) }
    ensures unread { IfErr result IsUnread }
{
    let alloc = rt.alloc();
    let mut records = Vec::new(alloc);
    for path in paths {
        let read = read_file(rt, alloc, path)?;
        add(&mut records, read)?;
    }
    Ok(records)
}

#[tactic(auto, using(crate::proofs::FilesRead::one_more))]
fn add(records: &mut Vec<Record>, read: Record) -> Result<(), AllocError>
    requires all { AreOfBytes records.old.items }
    requires one { IsOfBytes read }
    ensures all { OnOk result (AreOfBytes records.new.items) }
    ensures count { OnOk result (vec_len records.new ≡ vec_len records.old + 1) }
{
    records.push(read).map_err(AllocError::from)?;
    Ok(())
}

fn read_file<R: Files + AllocGlobal>(
    rt: &R,
    alloc: Global,
    path: &str,
) -> Result<Record, AuditFault>
    ensures read { IfOk result IsOfBytes }
    ensures unread { IfErr result IsUnread }
{
    match fs::read(rt, path) {
        Ok(bytes) => record_in(alloc, path, bytes.as_slice()),
        Err(error) => Err(unreadable(alloc, path, error.kind())),
    }
}

fn record_in(alloc: Global, path: &str, bytes: &[u8]) -> Result<Record, AuditFault>
    ensures read { IfOk result (λ read. IsRecordIn bytes.now (seen read)) }
    ensures unread { IfErr result IsUnread }
{
    match read_record(alloc, bytes) {
        Ok(read) => Ok(read),
        Err(RecordFault::Memory) => Err(AuditFault::Memory),
        Err(fault) => Err(no_record(alloc, path, fault)),
    }
}

fn unreadable(alloc: Global, path: &str, cause: ErrorKind) -> AuditFault
    ensures { IsUnread result }
{
    if cause == ErrorKind::OutOfMemory {
        return AuditFault::Memory;
    }
    match String::from_str(alloc, path) {
        Ok(path) => AuditFault::Unreadable(path, cause),
        Err(_) => AuditFault::Memory,
    }
}

fn no_record(alloc: Global, path: &str, fault: RecordFault) -> AuditFault
    ensures { IsUnread result }
{
    match String::from_str(alloc, path) {
        Ok(path) => AuditFault::NoRecord(path, fault),
        Err(_) => AuditFault::Memory,
    }
}
