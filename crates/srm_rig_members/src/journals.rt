//! How much journals and traces have.

use srm_world::{Journal, Trace};

/// How many entries journals have in all.
pub fn count_entries(journals: &[Journal]) -> usize {
    let mut count = 0_usize;
    for journal in journals {
        count = count.saturating_add(journal.entries().len());
    }
    count
}

/// How many members a trace has, and how many entries.
pub fn sizes(trace: &Trace) -> (usize, usize) {
    (trace.starts().len(), trace.entries().len())
}
