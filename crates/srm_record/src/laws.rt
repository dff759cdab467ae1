//! What holds of every record of a run.

ghost use Rattle.srm_record.specs.Law.{RecordLaw};

use srm_timers::Words;

/// States that a member's record tells what it did, and does nothing. Let two runs of a member begin alike, with the same settings and random numbers. If their records
/// have the same lines, they did the same: what a record's calls do when they are made anew is what the member did.
pub fn records_tell<W: Words>()
    ensures { RecordLaw W }
{}
