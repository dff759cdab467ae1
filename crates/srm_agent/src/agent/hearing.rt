//! Hearing what others sent.

ghost use Rattle.std.specs.Prelude.{◌≡◌, ◌≢◌, ◌≤◌, [], Some, None, Ok, IfOk, IsOk, OnOk, OnErr, true, false};
ghost use Rattle.srm_names.specs.declared.limits.TheConstants.{LATEST_MOMENT};
ghost use Rattle.srm_codec.specs.declared.fault.DecodeFault.TheVariants.{Memory};
ghost use Rattle.srm_codec.specs.Judging.{judge};
ghost use Rattle.srm_codec.specs.Spelling.{IsSpellable, names_in};
ghost use Rattle.srm_entries.specs.Entries.{is_gone};
ghost use Rattle.srm_store.specs.Stores.{HavePlaces};
ghost use Rattle.srm_agent.specs.Heeding.{EntersHeard, IsJudgedBy, IsNoiseFor, MayAccept, entry_by};
ghost use Rattle.srm_entries.specs.declared.cause.Outcome.TheVariants.{Taken};
ghost use Rattle.srm_agent.specs.Noting.{Enters, AgentStays, ReadsAs, AnswersHeard, HeardAs, Hears};

use super::Agent;
use super::noting::{Hearing, note};
use crate::heard::Heard;
use crate::noted::Noted;
use srm_codec::{Datagram, DecodeFault, decode, names_in, only_name};
use srm_entries::{AgentFault, Cause, Input, Outcome};
use srm_names::{Items, Name};
use srm_store::StoreFault;
use srm_timers::Words;
use std::alloc::AllocError;

impl<W: Words + Drop> Agent<W> {
    /// Hears bytes that came over the network, and returns what became of them, with the entry. It accepts the datagram that they encode,
    /// or ignores it with the first cause that holds. Bytes that encode no datagram of the session are noise, and so are all bytes to a
    /// gone member. What it ignores changes nothing but the last moment. Moments are microseconds, at most 2^48.
    ///
    /// The causes in their order: [`Cause::Gone`], [`Cause::Decode`], [`Cause::Own`], [`Cause::Stranger`], [`Cause::PageLimit`],
    /// [`Cause::BeyondFinal`], [`Cause::Conflict`].
    ///
    /// Fails only if out of memory, and only for a datagram of the session, to a member that isn't gone: noise always succeeds. Then
    /// nothing has changed, and there is no entry.
    pub fn hear_noted(&mut self, bytes: &[u8], now: u64) -> Result<Noted<Heard>, AllocError>
        requires { now ≤ LATEST_MOMENT }
        ensures ok { IfOk result (λ noted. Enters W.next_word (Some now) noted.entry.input self.old self.new noted.entry) }
        ensures reading { IfOk result (λ noted. ReadsAs bytes.now self.old noted.entry) }
        ensures answer { IfOk result (λ noted. AnswersHeard noted.entry noted.answer) }
        ensures err { OnErr result (AgentStays self.old self.new) }
        ensures here { OnErr result (is_gone self.old.state ≡ false) }
        ensures spelled { OnErr result (IsOk (judge self.old.config.session bytes.now)) }
    {
        let moment = self.moment(now);
        if self.is_gone() {
            let heard = self.ignore(moment, Cause::Gone);
            return Ok(self.note_noise(moment, heard));
        }
        match decode(self.alloc, self.config.session(), bytes) {
            Ok(datagram) => self.hear_datagram_noted(datagram, moment),
            Err(fault) => {
                let heard = self.hear_noise(fault, moment)?;
                Ok(self.note_noise(moment, heard))
            }
        }
    }

    /// Hears bytes that came over the network, and returns what became of them: [`hear_noted`](Agent::hear_noted) without the entry.
    ///
    /// Fails only with [`AgentFault::Memory`], and only for a datagram of the session, to a member that isn't gone. Then nothing has
    /// changed.
    pub fn hear(&mut self, bytes: &[u8], now: u64) -> Result<Heard, AgentFault>
        requires { now ≤ LATEST_MOMENT }
        ensures { Hears W.next_word now bytes.now self.old self.new result }
    {
        Ok(self.hear_bytes(bytes, now)?)
    }

    /// What [`hear`](Agent::hear) does. Fails only if out of memory.
    fn hear_bytes(&mut self, bytes: &[u8], now: u64) -> Result<Heard, AllocError>
        requires { now ≤ LATEST_MOMENT }
        ensures ok { IfOk result (λ heard. HeardAs W.next_word now bytes.now self.old self.new (Ok heard)) }
        ensures err { OnErr result (AgentStays self.old self.new) }
        ensures here { OnErr result (is_gone self.old.state ≡ false) }
        ensures spelled { OnErr result (IsOk (judge self.old.config.session bytes.now)) }
    {
        let moment = self.moment(now);
        if self.is_gone() {
            return Ok(self.ignore(moment, Cause::Gone));
        }
        match decode(self.alloc, self.config.session(), bytes) {
            Ok(datagram) => Ok(self.hear_datagram(datagram, false, moment)?.heard),
            Err(fault) => self.hear_noise(fault, moment),
        }
    }

    /// Hears bytes that could not be decoded, at a moment that isn't below the last one. Fails if memory ran out while they were decoded: then they aren't noise.
    fn hear_noise(&mut self, fault: DecodeFault, moment: u64) -> Result<Heard, AllocError>
        requires here { is_gone self.old.state ≡ false }
        requires later { self.old.last ≤ moment }
        requires moment { moment ≤ LATEST_MOMENT }
        ensures ok { IfOk result (λ heard. Enters W.next_word (Some moment) Input.Noise self.old self.new (entry_by self.old moment Input.Noise heard)) }
        ensures noise { IfOk result (λ heard. IsNoiseFor fault (entry_by self.old moment Input.Noise heard)) }
        ensures still { IfOk result (λ heard. heard.arms ≡ []) }
        ensures new { IfOk result (λ _. self.new ≡ record self.old { last = moment }) }
        ensures err { OnErr result (AgentStays self.old self.new) }
        ensures memory { OnErr result (fault ≡ Memory) }
    {
        let cause = noise_cause(fault)?;
        Ok(self.ignore(moment, cause))
    }

    /// The answer and the entry of bytes that were ignored as noise.
    fn note_noise(&self, moment: u64, heard: Heard) -> Noted<Heard>
        requires { heard.arms ≡ [] }
        ensures entry { result.entry ≡ entry_by self.now moment Input.Noise heard }
        ensures answer { result.answer ≡ Ok heard }
    {
        let hearing = Hearing {
            heard,
            noted: Items::new(Vec::new(self.alloc)),
        };
        note(
            self.alloc,
            self.config.me(),
            moment,
            Input::Noise,
            self.state,
            hearing,
        )
    }

    /// Hears a datagram at a moment that isn't below the last one, and makes the entry.
    fn hear_datagram_noted(
        &mut self,
        datagram: Datagram,
        moment: u64,
    ) -> Result<Noted<Heard>, AllocError>
        requires here { is_gone self.old.state ≡ false }
        requires spelled { IsSpellable datagram }
        requires later { self.old.last ≤ moment }
        requires moment { moment ≤ LATEST_MOMENT }
        ensures ok { IfOk result (λ noted. Enters W.next_word (Some moment) (Input.Heard datagram) self.old self.new noted.entry) }
        ensures judged { IfOk result (λ noted. IsJudgedBy datagram self.old noted.entry) }
        ensures answer { IfOk result (λ noted. AnswersHeard noted.entry noted.answer) }
        ensures err { OnErr result (AgentStays self.old self.new) }
    {
        let (me, state) = (self.config.me(), self.state);
        let input = Input::Heard(datagram.copy(self.alloc)?);
        let hearing = self.hear_datagram(datagram, true, moment)?;
        Ok(note(self.alloc, me, moment, input, state, hearing))
    }

    /// Hears a datagram at a moment that isn't below the last one.
    fn hear_datagram(
        &mut self,
        datagram: Datagram,
        notes: bool,
        moment: u64,
    ) -> Result<Hearing, AllocError>
        requires here { is_gone self.old.state ≡ false }
        requires spelled { IsSpellable datagram }
        requires later { self.old.last ≤ moment }
        requires moment { moment ≤ LATEST_MOMENT }
        ensures ok { IfOk result (λ hearing. EntersHeard W.next_word datagram moment self.old self.new hearing.heard) }
        ensures judged { IfOk result (λ hearing. IsJudgedBy datagram self.old (entry_by self.old moment (Input.Heard datagram) hearing.heard)) }
        ensures noted { IfOk result (λ hearing. notes ≡ true → hearing.noted ≡ hearing.heard.arms) }
        ensures err { OnErr result (AgentStays self.old self.new) }
    {
        if let Some(name) = only_name(&datagram) {
            return self.hear_named(datagram, &[name], notes, moment);
        }
        let names = names_in(self.alloc, &datagram)?;
        self.hear_named(datagram, &names, notes, moment)
    }

    /// Hears a datagram with these names.
    fn hear_named(
        &mut self,
        datagram: Datagram,
        names: &[Name],
        notes: bool,
        moment: u64,
    ) -> Result<Hearing, AllocError>
        requires here { is_gone self.old.state ≡ false }
        requires spelled { IsSpellable datagram }
        requires later { self.old.last ≤ moment }
        requires moment { moment ≤ LATEST_MOMENT }
        requires names { names.now ≡ names_in datagram }
        ensures ok { IfOk result (λ hearing. EntersHeard W.next_word datagram moment self.old self.new hearing.heard) }
        ensures judged { IfOk result (λ hearing. IsJudgedBy datagram self.old (entry_by self.old moment (Input.Heard datagram) hearing.heard)) }
        ensures noted { IfOk result (λ hearing. notes ≡ true → hearing.noted ≡ hearing.heard.arms) }
        ensures err { OnErr result (AgentStays self.old self.new) }
    {
        match self.cause_to_ignore(&datagram, names) {
            Some(cause) => {
                // By a call, so that the proof has no case for each kind of datagram that goes.
                drop(datagram);
                Ok(self.ignore_heard(moment, cause))
            }
            None => self.accept(datagram, names, notes, moment),
        }
    }

    /// Makes room in the store for these names, and accepts the datagram. Their pages find slots in the store, since they do in the page
    /// table.
    fn accept(
        &mut self,
        datagram: Datagram,
        names: &[Name],
        notes: bool,
        moment: u64,
    ) -> Result<Hearing, AllocError>
        requires may { MayAccept datagram names.now moment self.old }
        ensures ok { IfOk result (λ hearing. EntersHeard W.next_word datagram moment self.old self.new hearing.heard) }
        ensures judged { IfOk result (λ hearing. IsJudgedBy datagram self.old (entry_by self.old moment (Input.Heard datagram) hearing.heard)) }
        ensures noted { IfOk result (λ hearing. notes ≡ true → hearing.noted ≡ hearing.heard.arms) }
        ensures err { OnErr result (AgentStays self.old self.new) }
    {
        match self.store.room_to_learn(names) {
            Ok(()) => self.accept_ready(datagram, names, notes, moment),
            Err(StoreFault::PageLimit) => {
                drop(datagram);
                Ok(self.ignore_heard(moment, Cause::PageLimit))
            }
            Err(StoreFault::Memory) => {
                drop(datagram);
                Err(AllocError)
            }
        }
    }

    /// Accepts a datagram with these names. The store has room for them.
    #[tactic(auto, using(crate::proofs::Taken::may_carry))]
    fn accept_ready(
        &mut self,
        datagram: Datagram,
        names: &[Name],
        notes: bool,
        moment: u64,
    ) -> Result<Hearing, AllocError>
        requires may { MayAccept datagram names.now moment self.old }
        requires ready { HavePlaces names.now self.old.store }
        ensures ok { IfOk result (λ hearing. EntersHeard W.next_word datagram moment self.old self.new hearing.heard) }
        ensures done { IfOk result (λ hearing. hearing.heard.outcome ≡ Taken) }
        ensures noted { IfOk result (λ hearing. notes ≡ true → hearing.noted ≡ hearing.heard.arms) }
        ensures err { OnErr result (AgentStays self.old self.new) }
    {
        match datagram {
            Datagram::Data(drawop) => self.accept_drawop(drawop, None, notes, moment),
            Datagram::Request { sender, name, mask } => {
                self.accept_request(sender, name, mask, names, notes, moment)
            }
            Datagram::Repair { sender, drawop } => {
                self.accept_drawop(drawop, Some(sender), notes, moment)
            }
            session @ Datagram::Session { .. } => self.accept_session(
                session, names, notes, moment,
            ),
        }
    }

    /// Ignores a datagram: no timer is set.
    fn ignore_heard(&mut self, moment: u64, cause: Cause) -> Hearing
        requires { moment ≤ LATEST_MOMENT }
        ensures new { self.new ≡ record self.old { last = moment } }
        ensures heard { result.heard ≡ record { arms = []; outcome = Outcome.Ignored cause } }
        ensures noted { result.noted ≡ [] }
    {
        Hearing {
            heard: self.ignore(moment, cause),
            noted: Items::new(Vec::new(self.alloc)),
        }
    }

    /// Ignores the input: only the last moment changes. Takes no memory.
    fn ignore(&mut self, moment: u64, cause: Cause) -> Heard
        requires { moment ≤ LATEST_MOMENT }
        ensures new { self.new ≡ record self.old { last = moment } }
        ensures heard { result ≡ record { arms = []; outcome = Outcome.Ignored cause } }
    {
        self.last = moment;
        Heard {
            arms: Items::new(Vec::new(self.alloc)),
            outcome: Outcome::Ignored(cause),
        }
    }
}

/// The cause to ignore bytes with this fault. Fails if memory ran out while they were decoded.
fn noise_cause(fault: DecodeFault) -> Result<Cause, AllocError>
    ensures value { IfOk result (λ cause. cause ≡ Cause.Decode fault) }
    ensures other { OnOk result (fault ≢ Memory) }
    ensures err { OnErr result (fault ≡ Memory) }
{
    match fault {
        DecodeFault::Memory => Err(AllocError),
        _ => Ok(Cause::Decode(fault)),
    }
}
