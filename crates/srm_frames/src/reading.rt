//! Bytes as a record.

ghost use Rattle.std.specs.Prelude.{◌≡◌};
ghost use Rattle.srm_codec.specs.Spelling.{AreBytes};
ghost use Rattle.srm_frames.specs.LinesRead.{IsNextLine, AreLinesAt, IsEndOf};
ghost use Rattle.srm_frames.specs.WhatIsRead.{RecordView, IsRecordIn, IsJudged, IsFound, has_end};

use crate::beginning::{Beginning, read_beginning};
use crate::fault::RecordFault;
use crate::framed::line_in;
use crate::line::Line;
use crate::reader::Reader;
use std::alloc::{AllocError, Global};

/// How a record ends.
#[derive(Clone, Copy, Debug, PartialEq, Eq)]
pub enum RecordEnd {
    /// As the member did.
    Whole,
    /// Before the member did. So many bytes, 0 or more, follow the last frame that is whole.
    Cut(usize),
}

/// How a member began, and what it was given, call by call.
#[derive(Debug, Drop)]
pub struct Record {
    /// How the member began.
    pub beginning: Beginning,
    /// The lines, in order. The last one is `Ended` if the record is whole.
    pub lines: Vec<Line>,
    /// Whether the record is whole, or where it was cut.
    pub end: RecordEnd,
}

/// Returns the record that bytes are, up to where it was cut: where the next frame isn't there whole, or doesn't have its checksum.
///
/// Fails with the first fault of the bytes, in this order: [`RecordFault::Magic`], [`RecordFault::Version`], [`RecordFault::Settings`], and [`RecordFault::Frame`]
/// for the first frame that is whole but no frame of a record; and with [`RecordFault::Memory`] if out of memory. Costs a step for each byte.
pub fn read_record(alloc: Global, bytes: &[u8]) -> Result<Record, RecordFault>
    // What is read is in the bytes, and a fault is one that they have.
    ensures judged { IsJudged bytes.now result }

    // What is written is read.
    ensures read { (r : RecordView) → IsRecordIn bytes.now r → IsFound r result }
{
    judge(alloc, bytes)
}

#[tactic(auto, using(crate::proofs::RecordLaws::judged_ok, crate::proofs::RecordLaws::lines_fault, crate::proofs::RecordLaws::end_fault))]
fn judge(alloc: Global, bytes: &[u8]) -> Result<Record, RecordFault>
    ensures { IsJudged bytes.now result }
{
    let mut reader = Reader::new(bytes);
    let beginning = read_beginning(&mut reader)?;
    let lines = read_lines(alloc, &mut reader)?;
    let end = end_of(lines.as_slice(), reader.rest())?;
    Ok(Record {
        beginning,
        lines,
        end,
    })
}

// How a record ends that has these lines, with these bytes behind them.
fn end_of(lines: &[Line], rest: &[u8]) -> Result<RecordEnd, RecordFault>
    ensures { IsEndOf result lines.now rest.now }
{
    if !has_end(lines) {
        Ok(RecordEnd::Cut(rest.len()))
    } else if rest.is_empty() {
        Ok(RecordEnd::Whole)
    } else {
        Err(RecordFault::Frame(lines.len()))
    }
}

fn has_end(lines: &[Line]) -> bool
    ensures { result ≡ has_end lines.now }
{
    lines.iter().any(|line| line.is_end())
}

// The lines up to the end, or as far as there are any. The reader is then at the bytes behind them.
#[tactic(auto, using(crate::proofs::RecordLaws::none_so_far, crate::proofs::RecordLaws::more_so_far, crate::proofs::RecordLaws::read_ended, crate::proofs::RecordLaws::read_open, crate::proofs::RecordLaws::cut_short, crate::proofs::RecordLaws::next_shorter))]
fn read_lines(alloc: Global, reader: &mut Reader<'_>) -> Result<Vec<Line>, RecordFault>
    requires { AreBytes reader.old }
    ensures { AreLinesAt result reader.old reader.new }
{
    let mut lines = Vec::new(alloc);
    'lines: while let Some(line) = next_line(alloc, reader, lines.len())? {
        let is_end = line.is_end();
        lines.push(line).map_err(AllocError::from)?;
        if is_end {
            return Ok(lines);
        }
    }
    Ok(lines)
}

// The next line, which has this place.
fn next_line(
    alloc: Global,
    reader: &mut Reader<'_>,
    place: usize,
) -> Result<Option<Line>, RecordFault>
    requires { AreBytes reader.old }
    ensures { IsNextLine place result reader.old reader.new }
{
    let Some(frame) = reader.next_frame() else {
        return Ok(None);
    };
    match line_in(alloc, &frame)? {
        Some(line) => Ok(Some(line)),
        None => Err(RecordFault::Frame(place)),
    }
}
