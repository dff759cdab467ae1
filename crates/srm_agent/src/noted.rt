//! What a call returned, with its entry.

use srm_entries::{AgentFault, Entry};

/// What a call returned, and its entry.
///
/// Out of memory there is neither: a call that ends in `_noted` returns `AllocError` then, and the call without an entry
/// [`AgentFault::Memory`].
#[derive(Debug, Drop)]
pub struct Noted<A> {
    /// What the call returned, or the fault that it was refused with.
    pub answer: Result<A, AgentFault>,
    /// The entry of the call.
    pub entry: Entry,
}
