//! What a member goes through, counted.

use crate::dropped::{ByCause, DroppedCounts};
use crate::holes::Holes;
use crate::lost::{Lost, LostCounts};
use crate::page_code::{code_of, page_of};
use crate::presence::Presence;
use crate::signs::{SignFlags, Signs, is_unheard, sign_of};
use srm_agent::Verdict;
use srm_names::Page;
use srm_wire::{Dropped, Losses, WireCounts};
use std::alloc::{AllocError, Global};
use std::fmt;
use std::sync::atomic::{AtomicBool, AtomicU32, AtomicU64, AtomicUsize, Ordering};

/// What passed a member's wire so far, and what its agent made of it. One thread counts, and any reads. Counts wrap at 2^64.
#[derive(Drop)]
pub struct Tally {
    // A bit for each member in each set: heard, silent for ten seconds, left.
    heard: AtomicU32,
    silent: AtomicU32,
    left: AtomicU32,
    was_before: AtomicBool,
    missing: AtomicUsize,
    holes: Holes,
    sent: AtomicU64,
    came: AtomicU64,
    requests: AtomicU64,
    repairs: AtomicU64,
    ignored: AtomicU64,
    noise: AtomicU64,
    lost: LostCounts,
    dropped: DroppedCounts,
    signs: SignFlags,
    // How many session messages were sent, and the page of the last one, as a number.
    sessions: AtomicU64,
    told_page: AtomicU64,
    // The page of the member's last stroke, as a number.
    drawn_page: AtomicU64,
}

/// What passed a member's wire in a turn.
#[derive(Clone, Copy, Debug, PartialEq, Eq)]
pub struct Passed {
    /// The datagrams that were sent.
    pub sent: u64,
    /// The datagrams that came from others.
    pub came: u64,
    /// The requests among those that were sent.
    pub requests: u64,
    /// The repairs among those that were sent.
    pub repairs: u64,
    /// The session messages among those that were sent.
    pub sessions: u64,
    /// The page of the last of these.
    pub told_page: Option<Page>,
}

impl Passed {
    /// Returns that nothing passed.
    pub fn nothing() -> Passed {
        Passed {
            sent: 0,
            came: 0,
            requests: 0,
            repairs: 0,
            sessions: 0,
            told_page: None,
        }
    }
}

/// The session messages that a member sent.
#[derive(Clone, Copy, Debug, PartialEq, Eq)]
pub struct Sessions {
    /// How many they are.
    pub count: u64,
    /// The page of the last of them.
    pub page: Option<Page>,
}

impl Tally {
    /// Makes counts of 0. Fails only if out of memory.
    pub fn new(alloc: Global) -> Result<Tally, AllocError> {
        Ok(Tally {
            heard: AtomicU32::new(0),
            silent: AtomicU32::new(0),
            left: AtomicU32::new(0),
            was_before: AtomicBool::new(false),
            missing: AtomicUsize::new(0),
            holes: Holes::new(alloc)?,
            sent: AtomicU64::new(0),
            came: AtomicU64::new(0),
            requests: AtomicU64::new(0),
            repairs: AtomicU64::new(0),
            ignored: AtomicU64::new(0),
            noise: AtomicU64::new(0),
            lost: LostCounts::new(),
            dropped: DroppedCounts::new(),
            signs: SignFlags::new(),
            sessions: AtomicU64::new(0),
            told_page: AtomicU64::new(0),
            drawn_page: AtomicU64::new(0),
        })
    }

    /// Adds what passed the wire in a turn.
    pub fn count(&self, passed: &Passed) {
        self.sent.fetch_add(passed.sent, Ordering::SeqCst);
        self.came.fetch_add(passed.came, Ordering::SeqCst);
        self.requests.fetch_add(passed.requests, Ordering::SeqCst);
        self.repairs.fetch_add(passed.repairs, Ordering::SeqCst);
        if let Some(page) = passed.told_page {
            // The page is there before its message counts.
            self.told_page.store(code_of(page), Ordering::SeqCst);
            self.sessions.fetch_add(passed.sessions, Ordering::SeqCst);
        }
    }

    /// Counts a datagram that came from another member.
    pub fn count_came(&self) {
        self.came.fetch_add(1, Ordering::SeqCst);
    }

    /// Stores what is known of the others now.
    pub fn show_presence(&self, presence: Presence) {
        self.heard.store(presence.heard, Ordering::SeqCst);
        self.silent.store(presence.silent, Ordering::SeqCst);
        self.left.store(presence.left, Ordering::SeqCst);
    }

    /// Returns what is known of the others by now.
    pub fn presence(&self) -> Presence {
        Presence {
            heard: self.heard.load(Ordering::SeqCst),
            silent: self.silent.load(Ordering::SeqCst),
            left: self.left.load(Ordering::SeqCst),
        }
    }

    /// Notes that the member was in this session before.
    pub fn note_earlier(&self) {
        self.was_before.store(true, Ordering::SeqCst);
    }

    /// Returns whether the member was in this session before, as far as it heard.
    pub fn was_before(&self) -> bool {
        self.was_before.load(Ordering::SeqCst)
    }

    /// Stores how many drawops are missing now.
    pub fn show_missing(&self, count: usize) {
        self.missing.store(count, Ordering::SeqCst);
    }

    /// Returns the session messages that were sent by now.
    pub fn sessions(&self) -> Sessions {
        Sessions {
            count: self.sessions.load(Ordering::SeqCst),
            page: page_of(self.told_page.load(Ordering::SeqCst)),
        }
    }

    /// Notes that the member drew a stroke on this page.
    pub fn note_drawn(&self, page: Page) {
        self.drawn_page.store(code_of(page), Ordering::SeqCst);
    }

    /// Returns the page of the member's last stroke, which [`holes`](Tally::holes) has from the end of the turn on.
    pub fn drawn_page(&self) -> Option<Page> {
        page_of(self.drawn_page.load(Ordering::SeqCst))
    }

    /// Returns which pages have strokes, and which drawops are missing now, by stream.
    pub fn holes(&self) -> &Holes {
        &self.holes
    }

    /// Counts a datagram that the agent ignored.
    pub fn count_ignored(&self) {
        self.ignored.fetch_add(1, Ordering::SeqCst);
    }

    /// Counts what came and is noise to the agent, and notes what the verdict tells of its sender's settings.
    pub fn count_noise(&self, verdict: Verdict) {
        self.noise.fetch_add(1, Ordering::SeqCst);
        if let Some(sign) = sign_of(verdict) {
            self.signs.note(sign);
        }
    }

    /// Notes it if nobody reached the member, one of so many, by this moment, in microseconds since its start, though ten seconds passed.
    pub fn look_for_anybody(&self, members: u8, moment: u64) {
        if is_unheard(members, self.came.load(Ordering::SeqCst), moment) {
            self.signs.note_unheard();
        }
    }

    /// Returns what tells by now that members are set differently, or that nobody reaches this one.
    pub fn signs(&self) -> Signs {
        self.signs.signs()
    }

    /// Stores what the wire has counted by now.
    pub fn show_wire(&self, counts: &WireCounts) {
        self.show_lost(counts.lost);
        self.show_dropped(counts.dropped);
    }

    /// Stores how many were lost on their way out by now.
    pub fn show_lost(&self, losses: Losses) {
        self.lost.show(losses);
    }

    /// Returns what was lost on its way out by now.
    pub fn losses(&self) -> Losses {
        self.lost.losses()
    }

    /// Says that so many were received and dropped by now.
    pub fn show_dropped(&self, dropped: Dropped) {
        self.dropped.show(dropped);
    }

    /// Returns how many were received and dropped by now.
    pub fn dropped(&self) -> Dropped {
        self.dropped.dropped()
    }

    /// Returns what goes on by now, in a session of so many others. Who is alone sends to nobody.
    pub fn activity(&self, others: u8) -> Activity {
        let sent = self.sent.load(Ordering::SeqCst);
        Activity {
            others,
            heard: self.heard.load(Ordering::SeqCst).count_ones(),
            missing: self.missing.load(Ordering::SeqCst),
            sent: if others == 0 { 0 } else { sent },
            came: self.came.load(Ordering::SeqCst),
            requests: self.requests.load(Ordering::SeqCst),
            repairs: self.repairs.load(Ordering::SeqCst),
            ignored: self.ignored.load(Ordering::SeqCst),
            noise: self.noise.load(Ordering::SeqCst),
            losses: self.losses(),
            dropped: self.dropped(),
        }
    }
}

/// What passed a member's wire, and what its agent made of it. Its text is the line for what goes on.
#[derive(Clone, Copy, Debug, PartialEq, Eq)]
pub struct Activity {
    /// How many other members the session has.
    pub others: u8,
    /// Of how many of these a datagram came.
    pub heard: u32,
    /// The drawops that the member misses now.
    pub missing: usize,
    /// The datagrams that were sent.
    pub sent: u64,
    /// The datagrams that came from others.
    pub came: u64,
    /// The requests among those that were sent.
    pub requests: u64,
    /// The repairs among those that were sent.
    pub repairs: u64,
    /// The datagrams that the agent ignored.
    pub ignored: u64,
    /// What came and is no datagram of the session, or came to a member that is gone.
    pub noise: u64,
    /// The datagrams that were lost on their way out, each once for each member that it was to go to.
    pub losses: Losses,
    /// The datagrams that were received and dropped.
    pub dropped: Dropped,
}

impl fmt::Display for Activity {
    fn fmt<W: fmt::Write>(&self, f: &mut fmt::Formatter<W>) -> fmt::Result {
        write!(f, "srm: heard {} of {}, ", self.heard, self.others)?;
        write!(f, "missing {}, ", self.missing)?;
        write!(f, "sent {}, came {}, ", self.sent, self.came)?;
        write!(f, "asked {}, repaired {}, ", self.requests, self.repairs)?;
        write!(f, "ignored {}, noise {}", self.ignored, self.noise)?;
        if self.losses != Losses::none() {
            write!(f, ", lost: {}", Lost(self.losses))?;
        }
        if self.dropped != Dropped::none() {
            write!(f, ", dropped: {}", ByCause(self.dropped))?;
        }
        Ok(())
    }
}
