//! Accepting session messages.

ghost use Rattle.std.specs.Prelude.{◌≡◌, Ok, IfOk, OnErr, true};
ghost use Rattle.srm_names.specs.Names.{ascending, name_below};
ghost use Rattle.srm_codec.specs.Spelling.{row_below};
ghost use Rattle.srm_store.specs.Stores.{HavePlaces};
ghost use Rattle.srm_agent.specs.Growth.{AreNewlyMissingByRows};
ghost use Rattle.srm_agent_state.specs.TimerCalls.{IsSession};
ghost use Rattle.srm_agent.specs.Heeding.{EntersHeard, MayAccept};
ghost use Rattle.srm_entries.specs.declared.cause.Outcome.TheVariants.{Taken};
ghost use Rattle.srm_agent.specs.Noting.{AgentStays};

use super::Agent;
use super::noting::{Hearing, accepted, note_arms, room_to_note};
use srm_agent_state::{distance_table, hear_session_message, learn_datagram};
use srm_codec::Datagram;
use srm_names::{Name, names_between};
use srm_timers::Words;
use std::alloc::AllocError;

impl<W: Words + Drop> Agent<W> {
    /// Accepts a session message with these names. Fails only if out of memory.
    pub(super) fn accept_session(
        &mut self,
        datagram: Datagram,
        names: &[Name],
        notes: bool,
        moment: u64,
    ) -> Result<Hearing, AllocError>
        requires session { IsSession datagram }
        requires may { MayAccept datagram names.now moment self.old }
        requires ready { HavePlaces names.now self.old.store }
        ensures ok { IfOk result (λ hearing. EntersHeard W.next_word datagram moment self.old self.new hearing.heard) }
        ensures done { IfOk result (λ hearing. hearing.heard.outcome ≡ Taken) }
        ensures noted { IfOk result (λ hearing. notes ≡ true → hearing.noted ≡ hearing.heard.arms) }
        ensures err { OnErr result (AgentStays self.old self.new) }
    {
        let newly_missing = self.newly_missing_by_rows(names)?;
        let mut copies = room_to_note(self.alloc, notes, newly_missing.len())?;
        self.timers.room_for_rows(&newly_missing)?;
        hear_session_message(&mut self.distances, self.config.me(), &datagram, moment);
        let dist = distance_table(&self.distances);
        let arms = self
            .timers
            .hear_rows(&newly_missing, dist, moment, &mut self.words)
            .unwrap();
        note_arms(&mut copies, notes, &arms);
        learn_datagram(&mut self.store, &datagram, names);
        self.pages.add_all(names);
        self.last = moment;
        Ok(accepted(arms, copies))
    }

    /// The names of the rows' streams that aren't known of, up to the numbers of the rows, in order. Fails only if out of memory.
    fn newly_missing_by_rows(&self, rows: &[Name]) -> Result<Vec<Name>, AllocError>
        requires { ascending row_below rows.now ≡ true }
        ensures value { IfOk result (λ newly_missing. AreNewlyMissingByRows rows.now self.now newly_missing.items) }
        ensures rising { IfOk result (λ newly_missing. ascending name_below newly_missing.items ≡ true) }
    {
        let mut newly_missing = Vec::new(self.alloc);
        for row in rows {
            let known = self.store.known(row.stream());
            let more = names_between(self.alloc, row.stream(), known, row.number() + 1)?;
            newly_missing.extend_from_slice(&more)?;
        }
        Ok(newly_missing)
    }
}
