//! A member's history that is written to a file as it goes.

ghost use Rattle.std.specs.Prelude.{◌≡◌, ◌≤◌, [], None, true, length, option_map, IsSomeAnd, MatchOption};
ghost use Rattle.std.specs.Io.KnownBytes.{Appends};
ghost use Rattle.srm_names.specs.declared.limits.TheConstants.{PAGES};
ghost use Rattle.srm_record.specs.Records.{whole_record};
ghost use Rattle.srm_record.specs.Takes.{lent};
ghost use Rattle.srm_output.specs.Writing.{AppendsFront};
ghost use Rattle.srm_record.specs.Writing.{IsWritten, NotesIn, Stays};
ghost use Rattle.srm_record.specs.Begun.{IsRecorded, begins_in, begun_with};

use crate::record_failure::RecordFailure;
use crate::record_file::RecordFile;
use srm_agent::Agent;
use srm_entries::Entry;
use srm_frames::Beginning;
use srm_names::PageMsg;
use srm_timers::Words;
use srm_wire::WireCounts;
use srm_world::Past;
use std::alloc::{AllocError, Global};
use std::io::Write;
use std::marker::Model;
use std::sync::Arc;

/// The history of a member, kept in any way, whose calls are written to a file, if there is one.
///
/// A call that sends is written before [`append`](Past::append) returns, and so before any of its datagrams leaves. Other calls are written with the first call 200 ms of the
/// member's clock later, or once they have 64 KiB. If the file fails, or memory runs out for what is to be written, nothing more is written, and the history goes on without.
///
/// Contracts see how its record begins ([`Past`]), and no call changes that: a file that it has stays with it until [`end`](Written::end).
#[derive(Drop)]
pub struct Written<F: Write + Drop, P: Past<Entry> + Drop> {
    past: P,
    file: Option<RecordFile<F>>,
}

impl<F: Write + Drop, P: Past<Entry> + Drop> Model for Written<F, P> {
    ghost use Rattle.srm_record.specs.Writing.{WrittenView, IsWritten};

    ghost Value = { WrittenView P };

    ghost view = { λ w. record { past = w.past; entries = P.appended w.past; file = w.file } };

    ghost invariant = { λ w. IsWritten (P.appended w.past) w.file };
}

/// A history that is written no more.
#[derive(Drop)]
pub struct Ended<F: Write + Drop, P: Past<Entry> + Drop> {
    /// Whether the file has the whole record; true where there is no file.
    pub whole: bool,
    pub file: Option<F>,
    pub past: P,
    /// Where it is noted why nothing more was written, if anywhere.
    pub failure: Option<Arc<RecordFailure, Global>>,
}

impl<F: Write + Drop, P: Past<Entry> + Drop> Written<F, P> {
    /// Makes the history of a member that begins so and did nothing yet. The file, if there is one, gets the member's record from now on. It never fails: [`Ended::whole`] says whether
    /// all was written, and `failure`, at once, why nothing more is.
    #[tactic(auto, using(crate::proofs::Filing::written_at_first, crate::proofs::Beginning::begins_so))]
    pub fn new(
        alloc: Global,
        file: Option<F>,
        beginning: Beginning,
        past: P,
        failure: Option<Arc<RecordFailure, Global>>,
    ) -> Written<F, P>
        requires { P.appended past ≡ [] }
        ensures past { result.past ≡ past }
        ensures entries { result.entries ≡ [] }
        ensures begins { begins_in result.file ≡ option_map (λ f. begun_with beginning (F.contents f)) file }
        ensures file { MatchOption file (result.file ≡ None) (λ f. IsSomeAnd result.file (λ v. (v.beginning ≡ beginning) × (v.first ≡ F.contents f))) }
    {
        match file {
            Some(file) => Written {
                past,
                file: Some(RecordFile::new(alloc, file, beginning, failure)),
            },
            None => Written { past, file: None },
        }
    }

    /// The law that the bytes that the file took, and then those that wait, are the record of the entries. If the file or memory failed, the file took a front of the record. Nothing waits
    /// of the calls up to the last one that sends, and less than 64 KiB in all. The call does nothing.
    pub fn keeps_record(&self)
        ensures { IsWritten self.now.entries self.now.file }
    {
        let _ = &self.past;
    }

    /// Writes what the page workers took, slot by slot, and that this is all. Returns the file and the history. What stood in the file stays, also if writing fails.
    pub fn end(self, taken: &[&[PageMsg]]) -> Ended<F, P>
        requires { length taken.now ≤ PAGES }
        ensures past { result.past ≡ self.past }
        ensures whole { result.whole ≡ true → MatchOption self.file (result.file ≡ None) (λ v. IsSomeAnd result.file (λ f. Appends v.first (F.contents f) (whole_record v.beginning self.entries (lent taken.now)))) }
        ensures stored { result.whole ≡ true → IsRecorded F.contents (begins_in self.file) self.entries (lent taken.now) result.file }
        ensures front { MatchOption self.file (result.file ≡ None) (λ v. IsSomeAnd result.file (λ f. AppendsFront v.first (F.contents f) (whole_record v.beginning self.entries (lent taken.now)))) }
        ensures stays { MatchOption self.file (result.file ≡ None) (λ v. IsSomeAnd result.file (λ f. Stays v.now (F.contents f))) }
    {
        let Written { past, file } = self;
        match file {
            Some(file) => {
                let failure = file.share_failure();
                let (whole, file) = file.end(taken);
                Ended {
                    whole,
                    file: Some(file),
                    past,
                    failure,
                }
            }
            None => Ended {
                whole: true,
                file: None,
                past,
                failure: None,
            },
        }
    }
}

impl<F: Write + Drop, P: Past<Entry> + Drop> Past<Entry> for Written<F, P> {
    ghost appended = { λ w. w.entries };

    ghost has_room = { λ w. P.has_room w.past };

    ghost is_refused = { λ w. P.is_refused w.past };

    ghost begins = { λ w. begins_in w.file };

    fn empty(alloc: Global) -> Written<F, P> {
        Written {
            past: P::empty(alloc),
            file: None,
        }
    }

    fn make_room(&mut self) -> Result<(), AllocError> {
        self.past.make_room()
    }

    #[tactic(auto, using(crate::proofs::Filing::written_on, crate::proofs::Beginning::begins_on))]
    fn append(&mut self, one: Entry) {
        note_in(&mut self.file, &one);
        self.past.append(one);
    }

    fn turned<W: Words + Drop>(&mut self, agent: &Agent<W>, counts: &WireCounts) {
        self.past.turned(agent, counts);
    }
}

// Notes a call in a file, if there is one.
fn note_in<F: Write + Drop>(file: &mut Option<RecordFile<F>>, entry: &Entry)
    ensures { NotesIn file.old file.new entry.now }
{
    match file {
        Some(file) => file.note(entry),
        None => {}
    }
}
