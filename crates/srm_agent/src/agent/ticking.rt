//! Ticks: what a member does at a moment.

ghost use Rattle.std.specs.Prelude.{◌≡◌, ◌≤◌, Some, Ok, IfOk, OnErr, true, false, max};
ghost use Rattle.srm_names.specs.declared.limits.TheConstants.{LATEST_MOMENT};
ghost use Rattle.srm_entries.specs.Entries.{is_gone};
ghost use Rattle.srm_agent.specs.Noting.{Enters, AgentStays, AnswersAs, Does, IsTicked};
ghost use Rattle.srm_agent.specs.Ticking.{IsDue, IsIdle, TicksAs, ticked_with};
ghost use Rattle.srm_outbox.specs.Outs.{datagrams_of};
ghost use Rattle.srm_agent.specs.Waking.{IsEarly, Stirs};

use super::Agent;
use super::due::{Due, HandedOut};
use super::sending::with_last;
use crate::noted::Noted;
use crate::ticked::Ticked;
use srm_codec::Datagram;
use srm_entries::{AgentFault, Effects, Entry, Input, Verdict};
use srm_names::{Items, Member};
use srm_outbox::let_time_pass;
use srm_timers::{Arm, Words};
use std::alloc::{AllocError, Global};

/// What a tick returns, with copies for the entry of the datagrams that it sent, and of the timers that it set, if these are noted.
#[derive(Drop)]
struct Acted {
    ticked: Ticked,
    arms: Items<Arm>,
    outs: Items<Datagram>,
}

impl<W: Words + Drop> Agent<W> {
    /// Does what is due at a moment, in microseconds, at most 2^48, and returns it with the entry. It requests and repairs the names
    /// whose timers have expired, and sends what the rate lets go. Last it sends a session message if one is due, or the farewell of a
    /// leaving member that has sent all that it drew. A gone member does nothing.
    ///
    /// Fails only if out of memory: then nothing has changed, and there is no entry. A tick with nothing due can't fail.
    #[tactic(auto, using(crate::proofs::NextDue::stirs, crate::proofs::NextDue::stirs_at))]
    pub fn tick_noted(&mut self, now: u64) -> Result<Noted<Ticked>, AllocError>
        requires { now ≤ LATEST_MOMENT }
        ensures ok { IfOk result (λ noted. Enters W.next_word (Some now) Input.Ticked self.old self.new noted.entry) }
        ensures answer { IfOk result (λ noted. AnswersAs (IsTicked self.old.config.session noted.entry) noted.entry.verdict noted.answer) }
        ensures err { OnErr result (AgentStays self.old self.new) }
        ensures due { OnErr result (Stirs now self.old) }
    {
        let me = self.config.me();
        let moment = self.moment(now);
        if self.is_gone() {
            return Ok(note_idle(self.alloc, me, moment, self.rest(moment)));
        }
        if self.is_early(moment) {
            return Ok(note_idle(self.alloc, me, moment, self.wait(moment)));
        }
        let due = self.due_at(moment)?;
        let handed_out = due.handed_out.copy(self.alloc)?;
        let acted = self.act(due, true, moment)?;
        Ok(note(me, moment, handed_out, acted))
    }

    /// Does what is due at a moment, in microseconds, at most 2^48, and returns it: [`tick_noted`](Agent::tick_noted) without the entry.
    ///
    /// Fails only with [`AgentFault::Memory`], and then nothing has changed. A tick with nothing due can't fail.
    #[tactic(auto, using(crate::proofs::Entering::tick_allowed, crate::proofs::Passing::tick_enters))]
    pub fn tick(&mut self, now: u64) -> Result<Ticked, AgentFault>
        requires { now ≤ LATEST_MOMENT }
        ensures does { Does W.next_word (Some now) Input.Ticked (IsTicked self.old.config.session) self.old self.new result }
        ensures due { OnErr result (Stirs now self.old) }
    {
        Ok(self.tick_alone(now)?)
    }

    /// What [`tick`](Agent::tick) does. Fails only if out of memory.
    #[tactic(auto, using(crate::proofs::NextDue::stirs, crate::proofs::NextDue::stirs_at, crate::proofs::Passing::ticks_at))]
    fn tick_alone(&mut self, now: u64) -> Result<Ticked, AllocError>
        requires { now ≤ LATEST_MOMENT }
        ensures ok { IfOk result (TicksAs W.next_word now (max now self.old.last) self.old self.new) }
        ensures err { OnErr result (AgentStays self.old self.new) }
        ensures due { OnErr result (Stirs now self.old) }
    {
        let moment = self.moment(now);
        if self.is_gone() {
            return Ok(self.rest(moment));
        }
        if self.is_early(moment) {
            return Ok(self.wait(moment));
        }
        let due = self.due_at(moment)?;
        Ok(self.act(due, false, moment)?.ticked)
    }

    /// A tick with nothing due: only time has passed, also for the rate. Takes no memory.
    fn wait(&mut self, moment: u64) -> Ticked
        requires here { is_gone self.old.state ≡ false }
        requires later { self.old.last ≤ moment }
        requires moment { moment ≤ LATEST_MOMENT }
        requires early { IsEarly self.old moment }
        ensures ticks { TicksAs W.next_word moment moment self.old self.new result }
        ensures idle { IsIdle result }
    {
        let_time_pass(&mut self.bucket, moment);
        self.rest(moment)
    }

    /// A tick that does nothing: only the last moment changes. Takes no memory.
    fn rest(&mut self, moment: u64) -> Ticked
        requires { moment ≤ LATEST_MOMENT }
        ensures new { self.new ≡ record self.old { last = moment } }
        ensures idle { IsIdle result }
        ensures state { result.state ≡ self.old.state }
    {
        self.last = moment;
        Ticked {
            asks: Items::new(Vec::new(self.alloc)),
            fixes: Items::new(Vec::new(self.alloc)),
            arms: Items::new(Vec::new(self.alloc)),
            outs: Items::new(Vec::new(self.alloc)),
            state: self.state,
        }
    }

    /// Does what is due. Fails only if out of memory.
    fn act(&mut self, due: Due, notes: bool, moment: u64) -> Result<Acted, AllocError>
        requires here { is_gone self.old.state ≡ false }
        requires later { self.old.last ≤ moment }
        requires moment { moment ≤ LATEST_MOMENT }
        requires due { IsDue self.old moment due }
        ensures ok { IfOk result (λ acted. TicksAs W.next_word moment moment self.old self.new acted.ticked) }
        ensures asks { IfOk result (λ acted. acted.ticked.asks ≡ due.handed_out.asks) }
        ensures fixes { IfOk result (λ acted. acted.ticked.fixes ≡ due.handed_out.fixes) }
        ensures arms { IfOk result (λ acted. notes ≡ true → acted.arms ≡ acted.ticked.arms) }
        ensures outs { IfOk result (λ acted. acted.outs ≡ datagrams_of acted.ticked.outs) }
        ensures err { OnErr result (AgentStays self.old self.new) }
    {
        let went = self.room_to_go(due.due_items.len())?;
        let (arms, noted) = self.hand_out(&due.handed_out, notes, moment)?;
        let Due {
            handed_out,
            due_items,
            farewell,
            session_message,
        } = due;
        let went = self.send(due_items, went, moment);
        let last = self.end(farewell, session_message, moment);
        let (outs, sent) = with_last(went, last).into_items();
        Ok(Acted {
            ticked: Ticked {
                asks: handed_out.asks,
                fixes: handed_out.fixes,
                arms,
                outs,
                state: self.state,
            },
            arms: noted,
            outs: sent,
        })
    }
}

/// The answer and the entry of a tick that requested, repaired and sent nothing. Takes no memory.
fn note_idle(alloc: Global, me: Member, moment: u64, ticked: Ticked) -> Noted<Ticked>
    requires { IsIdle ticked }
    ensures entry { result.entry ≡ ticked_with me moment ticked }
    ensures answer { result.answer ≡ Ok ticked }
{
    let handed_out = HandedOut {
        asks: Items::new(Vec::new(alloc)),
        fixes: Items::new(Vec::new(alloc)),
    };
    let acted = Acted {
        ticked,
        arms: Items::new(Vec::new(alloc)),
        outs: Items::new(Vec::new(alloc)),
    };
    note(me, moment, handed_out, acted)
}

/// The answer and the entry of a tick, with a copy of the names that it requested and repaired. Can't fail.
fn note(me: Member, moment: u64, handed_out: HandedOut, acted: Acted) -> Noted<Ticked>
    requires asks { handed_out.asks ≡ acted.ticked.asks }
    requires fixes { handed_out.fixes ≡ acted.ticked.fixes }
    requires arms { acted.arms ≡ acted.ticked.arms }
    requires outs { acted.outs ≡ datagrams_of acted.ticked.outs }
    ensures entry { result.entry ≡ ticked_with me moment acted.ticked }
    ensures answer { result.answer ≡ Ok acted.ticked }
{
    let Acted { ticked, arms, outs } = acted;
    let state = ticked.state;
    Noted {
        answer: Ok(ticked),
        entry: Entry {
            member: me,
            moment,
            input: Input::Ticked,
            verdict: Verdict::Done,
            effects: Effects {
                drawn: None,
                arms,
                asks: handed_out.asks,
                fixes: handed_out.fixes,
                outs: fitted(outs),
                message: None,
                state,
            },
        },
    }
}

/// The same datagrams without room for more, since an entry may be stored for long. Where no smaller block can be had, they keep theirs.
fn fitted(datagrams: Items<Datagram>) -> Items<Datagram>
    ensures { result ≡ datagrams }
{
    let mut datagrams = datagrams.into_vec();
    datagrams.shrink_to_fit();
    Items::new(datagrams)
}
