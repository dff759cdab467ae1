//! Recorders, and the journals that they leave.

use srm_agent::Config;
use srm_timers::{Listed, Words};
use srm_world::{Journal, Recorder};
use std::alloc::{AllocError, Global};
use std::collections::VecDeque;

/// A recorder that was made at 0 and did nothing yet. All its random numbers are 0.
pub fn recorder(alloc: Global, config: Config) -> Result<Recorder<Listed>, AllocError> {
    Recorder::new(alloc, config, Listed::new(Vec::new(alloc)), 0)
}

/// The journals of all these recorders, in their order.
pub fn finish_all<W: Words + Drop>(
    alloc: Global,
    recorders: Vec<Recorder<W>>,
) -> Result<Vec<Journal>, AllocError> {
    let mut left = VecDeque::from(recorders);
    let mut journals = Vec::new(alloc);
    for _ in 0..left.len() {
        if let Some(recorder) = left.pop_front() {
            journals.push(recorder.finish())?;
        }
    }
    Ok(journals)
}
