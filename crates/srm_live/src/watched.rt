//! Entries that are watched and not kept.

ghost use Rattle.std.specs.Prelude.{◌≡◌, []};

use crate::claims::Claims;
use crate::need::Need;
use crate::presence::Presence;
use crate::signs::SILENCE;
use crate::tally::{Passed, Tally};
use srm_agent::{Agent, Config, Entry, Input, Verdict};
use srm_codec::Datagram;
use srm_names::{MEMBERS, Member};
use srm_timers::Words;
use srm_wire::WireCounts;
use srm_world::{Forgotten, Past};
use std::alloc::{AllocError, Global};
use std::sync::Arc;

/// The entries of a node that keeps none of them. What each says happened is told first to what others need, and to a tally if one is kept; and to both at the end of a turn what
/// the member answers.
#[derive(Drop)]
pub struct Watched {
    past: Forgotten<Entry>,
    need: Option<Arc<Need, Global>>,
    watch: Option<Watch>,
}

impl Watched {
    /// Makes a history without entries, which tells this need and this tally of each from now on. Without memory for it the tally is told nothing.
    pub fn new(
        alloc: Global,
        config: Config,
        need: Option<Arc<Need, Global>>,
        tally: Option<Arc<Tally, Global>>,
    ) -> Watched
        ensures { result.past ≡ [] }
    {
        Watched {
            past: Forgotten::new(),
            need,
            watch: watch_of(alloc, config, tally),
        }
    }

    // Entries that nobody watches.
    fn unseen() -> Watched
        ensures { result.past ≡ [] }
    {
        Watched {
            past: Forgotten::new(),
            need: None,
            watch: None,
        }
    }
}

impl Past<Entry> for Watched {
    ghost appended = { λ w. w.past };

    ghost has_room = { λ _. Unit {0} };

    ghost is_refused = { λ _. ⊥ };

    fn empty(_alloc: Global) -> Watched {
        Watched::unseen()
    }

    fn make_room(&mut self) -> Result<(), AllocError> {
        Ok(())
    }

    fn append(&mut self, one: Entry) {
        if let Some(need) = &self.need {
            need.see(&one);
        }
        if let Some(watch) = &mut self.watch {
            watch.see(&one);
        }
        self.past.append(one);
    }

    fn turned<W: Words + Drop>(&mut self, agent: &Agent<W>, counts: &WireCounts) {
        let outstanding = agent.outstanding();
        if let Some(need) = &self.need {
            need.show(&outstanding);
        }
        if let Some(watch) = &mut self.watch {
            watch.show_wire(counts);
            watch.ask(agent, outstanding.missing);
        }
    }
}

// What is shown of the entries so far.
#[derive(Drop)]
struct Watch {
    config: Config,
    // Who was heard and who left, as the last turn ended.
    presence: Presence,
    // When each member was heard last.
    heard_at: Vec<Option<u64>>,
    // When the last tick was.
    now: u64,
    // What passed the wire in this turn.
    passed: Passed,
    // What was said of the member's own streams in this turn.
    claims: Claims,
    // Whether an entry of this turn may have changed what the member answers.
    is_stale: bool,
    tally: Arc<Tally, Global>,
    // What the tally was told of the wire last.
    counts: WireCounts,
}

fn watch_of(alloc: Global, config: Config, tally: Option<Arc<Tally, Global>>) -> Option<Watch> {
    let tally = tally?;
    let heard_at = vec![in alloc; None; usize::from(MEMBERS)].ok()?;
    Some(Watch {
        config,
        presence: Presence::none(),
        heard_at,
        now: 0,
        passed: Passed::nothing(),
        claims: Claims::new(alloc),
        is_stale: false,
        tally,
        counts: WireCounts::of_failures(0),
    })
}

impl Watch {
    fn see(&mut self, entry: &Entry) {
        match &entry.input {
            Input::Noise => self.tally.count_noise(entry.verdict),
            Input::Heard(datagram) => {
                self.is_stale = true;
                let sender = datagram.sender();
                let is_other = sender.number() != self.config.me().number();
                if is_other && sender.number() < self.config.members() {
                    self.passed.came = self.passed.came.wrapping_add(1);
                    if let Some(last) = self.heard_at.get_mut(sender.index()) {
                        *last = Some(entry.moment);
                    }
                }
                if matches!(entry.verdict, Verdict::Ignored(_)) {
                    self.tally.count_ignored();
                    // If out of memory, an earlier run is told of by a later message.
                    let _ = self.claims.note(self.config.me(), datagram);
                }
            }
            Input::Ticked => self.tick(entry),
            Input::Drew(..) => {
                self.is_stale = true;
                if let Some(drawop) = &entry.effects.drawn {
                    self.tally.note_drawn(drawop.name.stream().page);
                }
            }
            _ => {}
        }
    }

    fn tick(&mut self, entry: &Entry) {
        self.now = entry.moment;
        let passed = &mut self.passed;
        for datagram in entry.effects.outs.as_slice() {
            passed.sent = passed.sent.wrapping_add(1);
            match datagram {
                Datagram::Request { .. } => passed.requests = passed.requests.wrapping_add(1),
                Datagram::Repair { .. } => passed.repairs = passed.repairs.wrapping_add(1),
                Datagram::Session { shown, .. } => {
                    passed.sessions = passed.sessions.wrapping_add(1);
                    passed.told_page = Some(*shown);
                }
                Datagram::Data(_) => {}
            }
        }
    }

    // Shows what the wire lost and dropped, if that changed.
    fn show_wire(&mut self, counts: &WireCounts) {
        if *counts != self.counts {
            self.counts = *counts;
            self.tally.show_wire(counts);
        }
    }

    // Shows what the member answers, which misses so many drawops, if it may have changed: what it misses, by stream, which of its pages have strokes, who left, and whether others
    // know of more than it drew.
    fn ask<W: Words + Drop>(&mut self, agent: &Agent<W>, missing: u32) {
        if self.is_stale {
            self.is_stale = false;
            self.tally.show_missing(missing as usize);
            self.tally
                .holes()
                .ask(agent, self.config.members(), missing);
            self.look_for_left(agent);
            if self.claims.settle(agent) {
                self.tally.note_earlier();
            }
        }
        self.look_for_silence();
        self.tally.show_presence(self.presence);
        self.tally.count(&self.passed);
        self.passed = Passed::nothing();
        self.tally.look_for_anybody(self.config.members(), self.now);
    }

    fn look_for_left<W: Words + Drop>(&mut self, agent: &Agent<W>) {
        for number in 0..self.config.members() {
            if let Some(member) = Member::new(number) {
                if number != self.config.me().number() && agent.has_left(member) {
                    self.presence.leave(member);
                }
            }
        }
    }

    // Notes who was heard, and not for long.
    fn look_for_silence(&mut self) {
        for number in 0..MEMBERS {
            if let Some(member) = Member::new(number) {
                self.look_at(member);
            }
        }
    }

    fn look_at(&mut self, member: Member) {
        let Some(Some(last)) = self.heard_at.get(member.index()) else {
            return;
        };
        let silence = self.now.saturating_sub(*last);
        self.presence.hear(member);
        if silence >= SILENCE {
            self.presence.fall_silent(member);
        }
    }
}
