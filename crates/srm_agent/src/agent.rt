//! The agent of one member.

ghost use Rattle.std.specs.Prelude.{◌≡◌, ◌≤◌, ℕ, max, List, [], IfOk, Ok, Err, None};
ghost use Rattle.srm_names.specs.declared.limits.TheConstants.{LATEST_MOMENT};
ghost use Rattle.srm_entries.specs.Configs.{Config as AConfig};
ghost use Rattle.srm_entries.specs.declared.entry.Entry.{Entry as AnEntry};
ghost use Rattle.srm_entries.specs.Entries.{is_gone, state};
ghost use Rattle.srm_agent.specs.Fits.{AgentFits, AreNewProgress};
ghost use Rattle.srm_entries.specs.Runs.{IsMemberRun};
ghost use Rattle.srm_entries.specs.Still.{entry_without_effects};
ghost use Rattle.srm_agent.specs.Noting.{verdict_answering};

mod accepting;
mod accepting_request;
mod accepting_session;
mod admitting;
mod distance;
mod drafting;
mod drawing;
mod due;
mod giving;
mod handing_out;
mod hearing;
mod judging;
mod knowing;
mod leaving;
mod missing;
mod new_page;
mod next_due;
mod noting;
mod outstanding;
mod sending;
mod session_message;
mod showing;
mod ticking;

use crate::noted::Noted;
use srm_agent_state::{Progress, Timers};
use srm_bucket::Bucket;
use srm_distance::Distances;
use srm_entries::{AgentFault, AgentState, Config, Entry, Input, SHORTEST_INTERVAL, Verdict};
use srm_names::{PAGES, Page, PageMsg};
use srm_outbox::Outgoing;
use srm_store::{PageTable, Store};
use srm_timers::Words;
use std::alloc::{AllocError, Global};
use std::marker::Model;

/// One member of a session: a state machine without clock, socket or thread. Strokes, datagrams, moments and random numbers go in;
/// datagrams and page messages come out.
///
/// # Order of calls
///
/// One thread drives an agent:
///
/// - Call [`draw`](Agent::draw), [`show`](Agent::show) and [`leave`](Agent::leave) when the user does so, and [`hear`](Agent::hear) when
///   a datagram comes. None of these sends: datagrams go out with a tick.
/// - After each of them, and after each tick, ask [`next_due`](Agent::next_due) again, since any call may bring it nearer or put it off.
///   The caller needs one timer only.
/// - At that moment call [`tick`](Agent::tick). A late tick does what is due by then; an early one does nothing.
/// - Send the bytes of each of [`Ticked::outs`](crate::Ticked), in order, to all other members, once. Nobody acknowledges them: members
///   request what they miss. A member ignores its own datagrams, so a multicast may bring them back.
/// - Then, and after each other call, call [`give`](Agent::give) for each slot, 0 to 7, until it returns `None`, and pass each message to
///   the page's worker. What the caller doesn't take now, later calls return.
///
/// To end, [`leave`](Agent::leave), and tick until [`Ticked::state`](crate::Ticked) is [`AgentState::Gone`]. From then on `next_due`
/// returns `None`. Each slot gives what is left and then the close, and the agent can be dropped.
///
/// # The clock
///
/// The caller keeps it. Moments are microseconds of the member's own clock from any beginning, at most 2^48, which the caller shows.
/// Members' clocks needn't agree. A moment below the last one that counted counts as the last, so a clock that steps back does no harm.
/// [`next_due`](Agent::next_due) may return a moment past 2^48, which no tick reaches.
///
/// # Errors
///
/// Each call lists its faults in order. After an error nothing has changed, the last moment too, and no random number was consumed.
///
/// After [`AgentFault::Memory`] make the same call again once there may be memory. A body that was passed in is gone, so keep a copy of
/// it where that matters. A caller that gives up loses nothing for good: a datagram that isn't heard counts as lost, a tick stays due, a
/// message stays to be given, and a stroke wasn't drawn.
///
/// # Entries
///
/// The calls that end in `_noted` also return their [`Entry`](crate::Entry): who called when, with what, and what the call did. All laws
/// speak of lists of entries. `srm_world`'s `Recorder` keeps them.
#[derive(Drop)]
pub struct Agent<W: Words + Drop> {
    alloc: Global,
    config: Config,
    words: W,
    state: AgentState,
    /// The last moment that counted, in microseconds.
    last: u64,
    showing: Page,
    pages: PageTable,
    /// What each slot was given so far.
    progress: Vec<Progress>,
    store: Store,
    distances: Distances,
    timers: Timers,
    bucket: Bucket<Outgoing>,
    /// When the next session message is due, in microseconds.
    due: u64,
}

impl<W: Words + Drop> Model for Agent<W> {
    ghost use Rattle.srm_agent.specs.Contents.{AgentContent, content_of, IsWhole};

    ghost Value = { AgentContent W };

    ghost view = { content_of };

    ghost invariant = { IsWhole };
}

impl<W: Words + Drop> Agent<W> {
    /// Makes an active agent at a moment, in microseconds, at most 2^48. It shows the first page, which has page slot 0 from the start. `words` are its random
    /// numbers.
    ///
    /// Fails only if out of memory.
    pub fn new(alloc: Global, config: Config, words: W, now: u64) -> Result<Agent<W>, AllocError>
        requires { now ≤ LATEST_MOMENT }
        ensures fits { IfOk result (AgentFits config now []) }
        ensures words { IfOk result (λ agent. agent.words ≡ words) }
    {
        Ok(Agent {
            alloc,
            config,
            words,
            state: AgentState::Active,
            last: now,
            showing: Page::first(),
            pages: PageTable::new(alloc)?,
            progress: no_progress(alloc)?,
            store: Store::new(alloc)?,
            distances: Distances::with_least(config.me(), config.least_distance()),
            timers: Timers::new(alloc, &config),
            bucket: Bucket::new(alloc, config.rate(), config.depth()),
            due: now + SHORTEST_INTERVAL,
        })
    }

    /// States that each history that this agent fits is a run of its member, and does nothing. So the laws of runs hold of it:
    /// [`gives`](crate::gives), [`responds`](crate::responds) and [`keeps_rate`](crate::keeps_rate).
    pub fn fits_runs_alone(&self)
        ensures { (c : AConfig) (made : ℕ) (past : List AnEntry) → AgentFits c made past self.now → IsMemberRun c made past }
    {}

    /// Returns whether the member is active, leaving or gone. Takes no memory and changes nothing.
    pub fn state(&self) -> AgentState
        ensures { (c : AConfig) (made : ℕ) (past : List AnEntry) → AgentFits c made past self.now → result ≡ state past }
    {
        self.state
    }

    fn is_gone(&self) -> bool
        ensures { result ≡ is_gone self.now.state }
    {
        self.state.is_gone()
    }

    /// The moment that counts: the last one, where `now` is below it.
    fn moment(&self, now: u64) -> u64
        requires { now ≤ LATEST_MOMENT }
        ensures value { result ≡ max now self.now.last }
        ensures small { result ≤ LATEST_MOMENT }
    {
        now.max(self.last)
    }

    /// The answer and the entry of a call that fails.
    fn refused<A>(&self, moment: u64, input: Input, fault: AgentFault) -> Noted<A>
        ensures entry { result.entry ≡ entry_without_effects self.now.config.me moment input (Verdict.Refused fault) None self.now.state }
        ensures answer { result.answer ≡ Err fault }
    {
        self.noted(moment, input, Err(fault))
    }

    /// The answer and the entry of a call that fails, or is done and has no effects.
    fn noted<A>(&self, moment: u64, input: Input, answer: Result<A, AgentFault>) -> Noted<A>
        ensures entry { result.entry ≡ entry_without_effects self.now.config.me moment input (verdict_answering answer) None self.now.state }
        ensures answer { result.answer ≡ answer }
    {
        let verdict = verdict_answering(&answer);
        Noted {
            entry: self.entry(moment, input, verdict, None),
            answer,
        }
    }

    /// An entry without effects, but perhaps with a message. Takes no memory.
    fn entry(&self, moment: u64, input: Input, verdict: Verdict, message: Option<PageMsg>) -> Entry
        ensures { result ≡ entry_without_effects self.now.config.me moment input verdict message self.now.state }
    {
        let (me, state) = (self.config.me(), self.state);
        Entry::without_effects(self.alloc, me, moment, input, verdict, message, state)
    }
}

fn verdict_answering<A>(answer: &Result<A, AgentFault>) -> Verdict
    ensures { result ≡ verdict_answering answer.now }
{
    match answer {
        Ok(_) => Verdict::Done,
        Err(fault) => Verdict::Refused(*fault),
    }
}

/// The progress of slots that were given nothing.
fn no_progress(alloc: Global) -> Result<Vec<Progress>, AllocError>
    ensures { IfOk result (λ progress. AreNewProgress progress.items) }
{
    let mut progress = Vec::new(alloc);
    for _ in 0..PAGES {
        progress.push(Progress::new())?;
    }
    Ok(progress)
}
