//! What verdicts say of the runs whose members wrote the records, and what is read of what they wrote.

ghost use Rattle.srm_audited.specs.Writers.{CompletenessLaw, RefusedLaw};
ghost use Rattle.srm_audited.specs.Written.{CutFilesLaw, CutLaw, EndedLaw, FilesLaw, KeptLaw, WrittenLaw};

/// States that a refusal holds of the runs that wrote the records, and does nothing. Where records are [`NotHonest`](crate::Verdict::NotHonest), no honest run is one whose members
/// wrote them, one each, whatever these did behind the cuts, and whatever members did whose records are missing.
pub fn refusals_hold()
    ensures { RefusedLaw }
{}

/// States that the records of an honest run are found honest, and does nothing. If all members of an honest run wrote the records, one each, whole or cut behind the last datagram
/// that the member sent, then the verdict is [`Honest`](crate::Verdict::Honest).
pub fn honest_runs_are_found()
    ensures { CompletenessLaw }
{}

/// States that what is written of a member is read as its record, and does nothing. Its journal is lawful, as a recorder's contracts say, with the random numbers of the seed in its
/// beginning. Each of the eight page slots has one list, a prefix of what the member gave there.
///
/// - `whole`: from the member's whole record, which [`Written::end`](srm_record::Written::end) writes, [`read_record`](srm_frames::read_record) returns the record of this beginning, these
///   calls and these lists, unless memory runs out;
/// - `cut`: from a prefix of it that has the whole beginning, it returns a record of the same beginning and of the first of the calls, unless memory runs out. Each list in it is a prefix of
///   the member's and of what these calls gave.
pub fn what_is_written_is_read()
    ensures whole { WrittenLaw }
    ensures cut { CutLaw }
{}

/// States that the laws on verdicts hold of the files of a run's members, and does nothing. A member's calls and lists are as in [`what_is_written_is_read`], and those of its calls that act
/// are the ones that act in its part of the run.
///
/// - `cut`: the record that is read there of a prefix is one that the member wrote in the run, as [`refusals_hold`] asks;
/// - `kept`: by [`Written::keeps_record`](srm_record::Written::keeps_record), a file that was empty at first has a prefix of the member's whole record after each call. If it neither failed
///   nor lacked memory, what it lacks stands behind the last call that sends or, if none does, behind the beginning;
/// - `ended`: [`Written::end`](srm_record::Written::end) leaves such bytes too, also if it fails;
/// - `all`: from a file that is the whole record or lacks no more than that, [`read_record`](srm_frames::read_record) returns a record with the member's beginning, unless memory runs out.
///   The member wrote it in the run, whole or cut behind the last datagram that it sent, as [`honest_runs_are_found`] asks. So this holds at each moment between two calls, and behind the
///   end, of a file that was empty at first and neither failed nor lacked memory before, in a run where the member made no more calls.
pub fn files_tell()
    ensures cut { CutFilesLaw }
    ensures kept { KeptLaw }
    ensures ended { EndedLaw }
    ensures all { FilesLaw }
{}
