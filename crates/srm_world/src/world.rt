//! Worlds: all members of one session, driven by events.

ghost use Rattle.std.specs.Prelude.{◌≡◌, ◌<◌, ◌+◌, ◌↔◌, ℕ, [], ◌∷◌, length, take, All, IfOk, OnOk, OnErr, IsTrue, IsSome};
ghost use Rattle.std.specs.Vec.Iter.{into_iter_items, into_iter_len};
ghost use Rattle.srm_world.specs.Traces.{IsRoster, started};
ghost use Rattle.srm_world.specs.Events.{Follows, FollowsOne, IsTimely, required_input};
ghost use Rattle.srm_world.specs.Claims.{IsLawful};
ghost use Rattle.srm_world.specs.WaitWords.{PlaysByWords};

mod entering;

use crate::event::Event;
use crate::fault::WorldFault;
use crate::participant::Participant;
use crate::sent::SentDatagrams;
use crate::start::Start;
use crate::trace::Trace;
use crate::world::entering::enter;
use srm_agent::Config;
use srm_timers::Words;
use std::alloc::{AllocError, Global};
use std::marker::Model;
use std::vec::IntoIter;

/// All members of one session, and what happened so far. A datagram comes to a member only if an event delivers it, so it may be lost,
/// repeated, late and out of order. Contracts see the trace, and the state of each member's generator of random numbers.
///
/// Whatever happens, the trace is an honest run of all members. So what page workers take of a source is a prefix of what it drew, and
/// all of it once its leaving is taken; and a tick requests and repairs exactly the names whose timers have expired.
#[derive(Drop)]
pub struct World<W: Words + Drop> {
    /// By number.
    participants: Vec<Participant<W>>,
    sent: SentDatagrams,
    trace: Trace,
}

impl<W: Words + Drop> Model for World<W> {
    ghost use Rattle.srm_world.specs.WaitWords.{WorldView};
    ghost use Rattle.srm_world.specs.Worlds.{IsWorld, world_view};

    ghost Value = { WorldView W };

    ghost view = { world_view };

    ghost invariant = { IsWorld };
}

impl<W: Words + Drop> World<W> {
    /// Makes a world with one member for each of `configs`, made at moment 0. The configs are those of all members of one roster, 1 to
    /// 32, in order, in one session. `words` are the random numbers of each member.
    ///
    /// Fails only if out of memory.
    pub fn new(alloc: Global, configs: Vec<Config>, words: Vec<W>) -> Result<World<W>, AllocError>
        requires roster { IsRoster (started configs.items) }
        requires words { length words.items ≡ length configs.items }
        ensures { IfOk result (λ world. world ≡ record { trace = record { starts = started configs.items; entries = [] }; words = words.items }) }
    {
        let mut words = words.into_iter();
        let mut starts = Vec::new(alloc);
        let mut participants = Vec::new(alloc);
        for config in &configs {
            let words = next_source(&mut words);
            participants.push(Participant::new(alloc, *config, words, 0)?)?;
            starts.push(Start {
                config: *config,
                made: 0,
            })?;
        }
        Ok(World {
            participants,
            sent: SentDatagrams::new(alloc),
            trace: Trace {
                starts,
                entries: Vec::new(alloc),
            },
        })
    }

    /// Returns what happened so far. Takes no memory.
    #[tactic(auto, using(crate::proofs::Wording::sources_counted))]
    pub fn trace(&self) -> &Trace
        ensures value { result.now ≡ self.now.trace }
        ensures sources { length self.now.words ≡ length self.now.trace.starts }
        ensures lawful { IsLawful self.now.trace }
    {
        &self.trace
    }

    /// Applies one event, and returns whether it left an entry. It skips an event whose member, datagram or page slot doesn't exist. An
    /// event that the member refuses leaves an entry without effects. Moments are microseconds, at most 2^48.
    ///
    /// Fails only with [`WorldFault::Memory`]: the trace is unchanged, and no random number was consumed.
    pub fn apply(&mut self, event: Event) -> Result<bool, WorldFault>
        requires { IsTimely event }
        ensures follows { OnOk result (FollowsOne self.old.trace.starts self.old.trace.entries event self.new.trace.entries) }
        ensures applied { IfOk result (λ applied. IsTrue applied ↔ IsSome (required_input self.old.trace.starts self.old.trace.entries event)) }
        ensures err { OnErr result (self.new ≡ self.old) }
        ensures starts { self.new.trace.starts ≡ self.old.trace.starts }
        ensures words { PlaysByWords W.next_word self.old self.new }
        ensures lawful { IsLawful self.new.trace }
    {
        self.happen(&event)
    }

    /// Applies events in order, with moments of at most 2^48 microseconds.
    ///
    /// Fails only with [`WorldFault::Memory`], and leaves the world as after the events before the one that memory ran out for. It
    /// doesn't return how many these are: a caller that wants to go on from there applies events one by one with [`World::apply`].
    #[tactic(auto, using(crate::proofs::Stepping::runs_from))]
    pub fn run(&mut self, events: &[Event]) -> Result<(), WorldFault>
        requires { All IsTimely events.now }
        ensures follows { OnOk result (Follows self.old.trace.starts self.old.trace.entries events.now self.new.trace.entries) }
        ensures err { OnErr result ((n : ℕ) × (n < length events.now) × Follows self.old.trace.starts self.old.trace.entries (take n events.now) self.new.trace.entries) }
        ensures starts { self.new.trace.starts ≡ self.old.trace.starts }
        ensures words { PlaysByWords W.next_word self.old self.new }
        ensures lawful { IsLawful self.new.trace }
    {
        let _ = self.trace();
        for event in events {
            self.happen(event)?;
        }
        Ok(())
    }

    /// Applies one event.
    fn happen(&mut self, event: &Event) -> Result<bool, WorldFault>
        requires { IsTimely event.now }
        ensures follows { OnOk result (FollowsOne self.old.trace.starts self.old.trace.entries event.now self.new.trace.entries) }
        ensures applied { IfOk result (λ applied. IsTrue applied ↔ IsSome (required_input self.old.trace.starts self.old.trace.entries event.now)) }
        ensures err { OnErr result (self.new ≡ self.old) }
        ensures starts { self.new.trace.starts ≡ self.old.trace.starts }
        ensures words { PlaysByWords W.next_word self.old self.new }
        ensures lawful { IsLawful self.new.trace }
    {
        self.sent.make_room()?;
        let applied = enter(
            &mut self.participants,
            &mut self.sent,
            &mut self.trace,
            event,
        )?;
        Ok(applied)
    }
}

/// The generator of the next member.
fn next_source<W: Drop>(sources: &mut IntoIter<W>) -> W
    requires { 0 < into_iter_len sources.old }
    ensures items { into_iter_items sources.old ≡ result ∷ into_iter_items sources.new }
    ensures len { into_iter_len sources.new + 1 ≡ into_iter_len sources.old }
{
    sources.next().unwrap()
}
