//! Accepting requests.

ghost use Rattle.std.specs.Prelude.{◌≡◌, Ok, IfOk, OnErr, true};
ghost use Rattle.srm_names.specs.Names.{ascending, name_below};
ghost use Rattle.srm_codec.specs.declared.datagram.Datagram.TheVariants.{Request};
ghost use Rattle.srm_store.specs.Stores.{HavePlaces};
ghost use Rattle.srm_agent.specs.Growth.{AreNewlyMissingUpTo};
ghost use Rattle.srm_agent.specs.Heeding.{EntersHeard, MayAccept};
ghost use Rattle.srm_entries.specs.declared.cause.Outcome.TheVariants.{Taken};
ghost use Rattle.srm_agent.specs.Noting.{AgentStays};

use super::Agent;
use super::noting::{Hearing, accepted, note_arms, room_to_note};
use srm_agent_state::{distance_table, greatest_in, learn_all};
use srm_names::{Member, Name, Stream, names_between};
use srm_timers::Words;
use std::alloc::AllocError;

impl<W: Words + Drop> Agent<W> {
    /// Accepts a request for these names. Fails only if out of memory.
    pub(super) fn accept_request(
        &mut self,
        sender: Member,
        name: Name,
        mask: u32,
        names: &[Name],
        notes: bool,
        moment: u64,
    ) -> Result<Hearing, AllocError>
        requires may { MayAccept (Request sender name mask) names.now moment self.old }
        requires ready { HavePlaces names.now self.old.store }
        ensures ok { IfOk result (λ hearing. EntersHeard W.next_word (Request sender name mask) moment self.old self.new hearing.heard) }
        ensures done { IfOk result (λ hearing. hearing.heard.outcome ≡ Taken) }
        ensures noted { IfOk result (λ hearing. notes ≡ true → hearing.noted ≡ hearing.heard.arms) }
        ensures err { OnErr result (AgentStays self.old self.new) }
    {
        let newly_missing = self.newly_missing_up_to(&name.stream(), names)?;
        let mut copies = room_to_note(
            self.alloc,
            notes,
            names.len().saturating_add(newly_missing.len()),
        )?;
        let dist = distance_table(&self.distances);
        let arms = self.timers.hear_request(
            &self.store,
            sender,
            names,
            &newly_missing,
            dist,
            moment,
            &mut self.words,
        )?;
        note_arms(&mut copies, notes, &arms);
        learn_all(&mut self.store, names);
        self.pages.add_all(names);
        self.last = moment;
        Ok(accepted(arms, copies))
    }

    /// The names of a stream that aren't known of, up to the greatest of these, in order. Fails only if out of memory.
    fn newly_missing_up_to(&self, stream: &Stream, names: &[Name]) -> Result<Vec<Name>, AllocError>
        ensures value { IfOk result (λ newly_missing. AreNewlyMissingUpTo stream.now names.now self.now newly_missing.items) }
        ensures rising { IfOk result (λ newly_missing. ascending name_below newly_missing.items ≡ true) }
    {
        let known = self.store.known(*stream);
        let last = greatest_in(names, stream);
        names_between(self.alloc, *stream, known, last + 1)
    }
}
