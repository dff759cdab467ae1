//! Accepting data and repairs.

ghost use Rattle.std.specs.Prelude.{◌≡◌, [], ◌∷◌, Ok, IfOk, OnErr, true};
ghost use Rattle.srm_names.specs.Names.{ascending, name_below};
ghost use Rattle.srm_store.specs.Stores.{HavePlaces};
ghost use Rattle.srm_agent.specs.Heeding.{EntersHeard, MayAccept, AreNewlyMissingBelow, carrying};
ghost use Rattle.srm_entries.specs.declared.cause.Outcome.TheVariants.{Taken};
ghost use Rattle.srm_agent.specs.Noting.{AgentStays};

use super::Agent;
use super::noting::{Hearing, accepted, note_arms, room_to_note};
use srm_agent_state::{distance_table, keep};
use srm_names::{Drawop, Member, Name, names_between};
use srm_timers::Words;
use std::alloc::AllocError;

impl<W: Words + Drop> Agent<W> {
    /// Accepts a drawop: data, or a repair by this member.
    pub(super) fn accept_drawop(
        &mut self,
        drawop: Drawop,
        repairer: Option<Member>,
        notes: bool,
        moment: u64,
    ) -> Result<Hearing, AllocError>
        requires may { MayAccept (carrying repairer drawop) (drawop.name ∷ []) moment self.old }
        requires ready { HavePlaces (drawop.name ∷ []) self.old.store }
        ensures ok { IfOk result (λ hearing. EntersHeard W.next_word (carrying repairer drawop) moment self.old self.new hearing.heard) }
        ensures done { IfOk result (λ hearing. hearing.heard.outcome ≡ Taken) }
        ensures noted { IfOk result (λ hearing. notes ≡ true → hearing.noted ≡ hearing.heard.arms) }
        ensures err { OnErr result (AgentStays self.old self.new) }
    {
        let name = drawop.name;
        let newly_missing = self.newly_missing_below(name)?;
        let mut copies = room_to_note(self.alloc, notes, newly_missing.len())?;
        let dist = distance_table(&self.distances);
        let repaired = repairer.is_some();
        let arms = self.timers.hear_drawop(
            name,
            repaired,
            &newly_missing,
            dist,
            moment,
            &mut self.words,
        )?;
        note_arms(&mut copies, notes, &arms);
        keep(&mut self.store, drawop);
        self.pages.add_all(&[name]);
        self.last = moment;
        Ok(accepted(arms, copies))
    }

    /// The names of this name's stream below it that aren't known of, in order. Fails only if out of memory.
    fn newly_missing_below(&self, name: Name) -> Result<Vec<Name>, AllocError>
        ensures value { IfOk result (λ names. AreNewlyMissingBelow name self.now names.items) }
        ensures rising { IfOk result (λ names. ascending name_below names.items ≡ true) }
    {
        let known = self.store.known(name.stream());
        names_between(self.alloc, name.stream(), known, name.number())
    }
}
