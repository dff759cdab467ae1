//! The lists of a session message, each behind its count.

ghost use Rattle.std.specs.Prelude.{Some, None, if◌then◌else◌};
ghost use Rattle.srm_codec.specs.Judging.{name_at, echo_at, items_at, list_at};
ghost use Rattle.srm_codec.specs.Reading.{IsRead, IsReadUnless, IsSkimmed};

use crate::fault::DecodeFault;
use crate::reader::Reader;
use srm_names::{Echo, Items, Member, Name};
use std::alloc::Global;

/// Reads the rows, which rise. In a farewell the source of each is the sender.
#[tactic(auto, unfolding(crate::specs::Judging::list_at))]
pub fn rows(
    alloc: Global,
    farewell: bool,
    sender: Member,
    reader: &mut Reader,
) -> Result<Items<Name>, DecodeFault>
    ensures { IsReadUnless result reader.new (list_at (name_at (if farewell then Some sender else None)) reader.old) }
{
    let count = reader.u8()?;
    counted_rows(alloc, count, farewell, sender, reader)
}

fn counted_rows(
    alloc: Global,
    count: u8,
    farewell: bool,
    sender: Member,
    reader: &mut Reader,
) -> Result<Items<Name>, DecodeFault>
    ensures { IsReadUnless result reader.new (items_at (name_at (if farewell then Some sender else None)) count None reader.old) }
{
    let mut rows = Vec::with_capacity(alloc, usize::from(count))?;
    'rows: for _ in 0..count {
        let wanted = farewell.then_some(sender);
        let row = reader.name(wanted, rows.last().copied())?;
        rows.push(row).unwrap();
    }
    Ok(Items::new(rows))
}

/// Reads the echoes, which rise.
#[tactic(auto, unfolding(crate::specs::Judging::list_at))]
pub fn echoes(alloc: Global, reader: &mut Reader) -> Result<Items<Echo>, DecodeFault>
    ensures { IsReadUnless result reader.new (list_at echo_at reader.old) }
{
    let count = reader.u8()?;
    counted_echoes(alloc, count, reader)
}

fn counted_echoes(alloc: Global, count: u8, reader: &mut Reader) -> Result<Items<Echo>, DecodeFault>
    ensures { IsReadUnless result reader.new (items_at echo_at count None reader.old) }
{
    let mut echoes = Vec::with_capacity(alloc, usize::from(count))?;
    'echoes: for _ in 0..count {
        let echo = echo(echoes.last().copied(), reader)?;
        echoes.push(echo).unwrap();
    }
    Ok(Items::new(echoes))
}

/// An echo, of a member after that of the last one.
#[tactic(auto, unfolding(crate::specs::Judging::echo_member_at, crate::specs::Judging::echo_at))]
fn echo(last: Option<Echo>, reader: &mut Reader) -> Result<Echo, DecodeFault>
    ensures { IsRead result reader.new (echo_at last reader.old) }
{
    let member = reader.member()?;
    match last {
        Some(echo) if echo.member >= member => return Err(DecodeFault::Order),
        _ => {}
    }
    let t1 = reader.moment()?;
    let delay = reader.moment()?;
    Ok(Echo { member, t1, delay })
}

/// Judges rows as [`rows`] does, without memory.
#[tactic(auto, unfolding(crate::specs::Judging::list_at))]
pub fn skim_rows(farewell: bool, sender: Member, reader: &mut Reader) -> Result<(), DecodeFault>
    ensures { IsSkimmed result reader.new (list_at (name_at (if farewell then Some sender else None)) reader.old) }
{
    let count = reader.u8()?;
    skim_counted_rows(count, farewell, sender, reader)
}

fn skim_counted_rows(
    count: u8,
    farewell: bool,
    sender: Member,
    reader: &mut Reader,
) -> Result<(), DecodeFault>
    ensures { IsSkimmed result reader.new (items_at (name_at (if farewell then Some sender else None)) count None reader.old) }
{
    let mut last = None;
    'rows: for _ in 0..count {
        let wanted = farewell.then_some(sender);
        let row = reader.name(wanted, last)?;
        last = Some(row);
    }
    Ok(())
}

/// Judges echoes as [`echoes`] does, without memory.
#[tactic(auto, unfolding(crate::specs::Judging::list_at))]
pub fn skim_echoes(reader: &mut Reader) -> Result<(), DecodeFault>
    ensures { IsSkimmed result reader.new (list_at echo_at reader.old) }
{
    let count = reader.u8()?;
    skim_counted_echoes(count, reader)
}

fn skim_counted_echoes(count: u8, reader: &mut Reader) -> Result<(), DecodeFault>
    ensures { IsSkimmed result reader.new (items_at echo_at count None reader.old) }
{
    let mut last = None;
    'echoes: for _ in 0..count {
        let echo = echo(last, reader)?;
        last = Some(echo);
    }
    Ok(())
}
