//! The lines of what page workers took.

ghost use Rattle.std.specs.Prelude.{◌≡◌, ◌≤◌, ◌++◌, ◌∷◌, [], length, map, IfOk, OnOk};
ghost use Rattle.srm_names.specs.declared.limits.TheConstants.{PAGES};
ghost use Rattle.srm_record.specs.Takes.{taken_in, takes_at, end_at, slot_lines};

use srm_frames::{Call, Line};
use srm_names::PageMsg;
use std::alloc::{AllocError, Global};

/// Returns the lines of what page workers took, slot by slot, at the last moment in the record. Fails only if out of memory.
pub fn takes_at(alloc: Global, last: u64, taken: &[Vec<PageMsg>]) -> Result<Vec<Line>, AllocError>
    requires { length taken.now ≤ PAGES }
    ensures { IfOk result (λ lines. lines.items ≡ takes_at last (taken_in taken.now)) }
{
    let mut lines = Vec::new(alloc);
    for (slot, list) in taken.iter().enumerate() {
        add_slot(&mut lines, last, slot as u8, list.as_slice())?;
    }
    Ok(lines)
}

fn add_slot(lines: &mut Vec<Line>, last: u64, slot: u8, list: &[PageMsg]) -> Result<(), AllocError>
    ensures { OnOk result (lines.new.items ≡ lines.old.items ++ slot_lines last slot list.now) }
{
    for message in list {
        let call = Call::Took(slot, message.copy()?);
        lines
            .push(Line { moment: last, call })
            .map_err(AllocError::from)?;
    }
    Ok(())
}

/// The line that a record ends with.
pub fn end_at(last: u64) -> Line
    ensures { result ≡ end_at last }
{
    Line {
        moment: last,
        call: Call::Ended,
    }
}
