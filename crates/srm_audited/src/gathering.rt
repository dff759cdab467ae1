//! What records tell, and what page workers took.

ghost use Rattle.std.specs.Prelude.{◌≡◌, ◌++◌, ◌∷◌, [], vec_len, OnOk, IfErr, IfOk};
ghost use Rattle.srm_names.specs.declared.limits.TheConstants.{PAGES};
ghost use Rattle.srm_record.specs.Faults.{IsRetellFault};
ghost use Rattle.srm_record.specs.Takes.{taken_in};
ghost use Rattle.srm_audited.specs.Sessions.{gots_from, is_cut, replay_of, told_by, Adds, IsReplayOf};

use srm_audit::Got;
use srm_frames::{Record, RecordEnd};
use srm_gaps::Told;
use srm_names::{Items, Member, PageMsg};
use srm_record::{Replayed, RetellFault, retell};
use std::alloc::{AllocError, Global};
use std::collections::VecDeque;

/// What came out of the calls of records, made anew.
#[derive(Drop)]
pub struct Gathered {
    pub told: Vec<Told>,
    pub gots: Vec<Got>,
}

/// Makes the calls of a record anew, and adds what came out, if the record is the record of that. Fails as [`retell`] does: then nothing is added, unless memory ran out.
pub fn add(alloc: Global, gathered: &mut Gathered, read: &Record) -> Result<(), RetellFault>
    ensures adds { OnOk result (Adds read.now gathered.old.told.items gathered.old.gots.items gathered.new.told.items gathered.new.gots.items) }
    ensures fault { IfErr result (IsRetellFault read.now) }
{
    let replayed = replay(alloc, read)?;
    match add_replayed(gathered, read.end, replayed) {
        Ok(()) => Ok(()),
        Err(_) => Err(RetellFault::Memory),
    }
}

// Makes the calls of a record anew.
fn replay(alloc: Global, read: &Record) -> Result<Replayed, RetellFault>
    ensures is { IfOk result (λ r. IsReplayOf read.now (replay_of read.now.end r)) }
    ensures slots { IfOk result (λ r. vec_len r.taken ≡ PAGES) }
    ensures fault { IfErr result (IsRetellFault read.now) }
{
    retell(alloc, read)
}

fn add_replayed(
    gathered: &mut Gathered,
    end: RecordEnd,
    replayed: Replayed,
) -> Result<(), AllocError>
    requires { vec_len replayed.taken ≡ PAGES }
    ensures told { OnOk result (gathered.new.told.items ≡ gathered.old.told.items ++ told_by end replayed.journal ∷ []) }
    ensures gots { OnOk result (gathered.new.gots.items ≡ gathered.old.gots.items ++ gots_from replayed.journal.start.config.me 0 (taken_in replayed.taken.items)) }
{
    let Replayed { journal, taken } = replayed;
    add_gots(&mut gathered.gots, journal.start().config.me(), taken)?;
    let is_cut = is_cut(end);
    gathered
        .told
        .push(Told { journal, is_cut })
        .map_err(AllocError::from)
}

fn is_cut(end: RecordEnd) -> bool
    ensures { result ≡ is_cut end }
{
    matches!(end, RecordEnd::Cut(_))
}

fn add_gots(gots: &mut Vec<Got>, member: Member, taken: Vec<Vec<PageMsg>>) -> Result<(), AllocError>
    requires { vec_len taken ≡ PAGES }
    ensures { OnOk result (gots.new.items ≡ gots.old.items ++ gots_from member 0 (taken_in taken.items)) }
{
    let mut lists = VecDeque::from(taken);
    let mut slot = 0_u8;
    'lists: while let Some(list) = lists.pop_front() {
        let list = Items::new(list);
        gots.push(Got { member, slot, list })
            .map_err(AllocError::from)?;
        slot += 1;
    }
    Ok(())
}
