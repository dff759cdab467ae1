//! Taking journals apart.

ghost use Rattle.std.specs.Prelude.{◌≡◌, IfOk};
ghost use Rattle.std.specs.List.{AllByRecursion};
ghost use Rattle.srm_world.specs.Claims.{IsLawfulJournal};
ghost use Rattle.srm_audit.specs.Audits.{starts_of};
ghost use Rattle.srm_audit.specs.Merging.{Opens};

use crate::merge::Merge;
use crate::queue::Queue;
use crate::spellings::Spellings;
use srm_world::{Journal, Start};
use std::alloc::{AllocError, Global};

/// States that each of the journals is a run of its member without takes, which its type guarantees. Changes nothing.
pub fn know(journals: &[Journal])
    ensures { AllByRecursion IsLawfulJournal journals.now }
{
    for journal in journals {
        let _ = journal.entries();
    }
}

/// Returns how the members began, and their entries, none of them merged yet. Fails only if out of memory.
pub fn open(alloc: Global, journals: Vec<Journal>) -> Result<(Vec<Start>, Merge), AllocError>
    requires { AllByRecursion IsLawfulJournal journals.items }
    ensures starts { IfOk result (λ opened. opened.0.items ≡ starts_of journals.items) }
    ensures merge { IfOk result (λ opened. Opens journals.items opened.1) }
{
    let mut starts = Vec::new(alloc);
    let mut queues = Vec::new(alloc);
    let mut rest = journals.into_iter();
    while let Some(journal) = rest.next() {
        let (start, entries) = journal.into_parts();
        starts.push(start)?;
        queues.push(Queue::new(alloc, entries))?;
    }
    let merge = Merge {
        queues,
        entries: Vec::new(alloc),
        spellings: Spellings::new(alloc),
    };
    Ok((starts, merge))
}
