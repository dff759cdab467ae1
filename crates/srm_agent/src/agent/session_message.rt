//! Session messages, and when the next one is due.

ghost use Rattle.std.specs.Prelude.{◌≡◌, ◌≤◌, ◌<◌, ◌*◌, ◌/◌, max, map, ℕ, List, IfOk, option_map};
ghost use Rattle.srm_bucket.specs.declared.limits.TheConstants.{LEAST_RATE};
ghost use Rattle.srm_names.specs.declared.limits.TheConstants.{LATEST_MOMENT, MEMBERS, DRAWOPS};
ghost use Rattle.srm_names.specs.Names.{named, stream_on};
ghost use Rattle.srm_codec.specs.declared.datagram.Datagram.TheVariants.{Session};
ghost use Rattle.srm_codec.specs.Spelling.{IsSpellable, is_page};
ghost use Rattle.srm_entries.specs.Configs.{Config as AConfig};
ghost use Rattle.srm_agent.specs.declared.agent.session_message.TheConstants.{LONGEST_INTERVAL, LONGEST_SESSION_MESSAGE};
ghost use Rattle.srm_entries.specs.declared.entry.Entry.{Entry as AnEntry};
ghost use Rattle.srm_agent.specs.Fits.{AgentFits};
ghost use Rattle.srm_agent.specs.SessionMessages.{IsSessionMessageOf, IsSessionMessageSpelled, AreDueRows, AreOwed, AreShown, AreOwnStreams, AreInOrder, AreRowsOf, IsRow, CountsOnce};
ghost use Rattle.srm_entries.specs.Sessions.{members_remaining, session_interval, if_positive};

use super::Agent;
use srm_agent_state::{member, page_in_range, stream_in_range};
use srm_codec::{
    Datagram, ECHO_BYTES, HEAD_BYTES, LONGEST_LIST, NAME_BYTES, SESSION_MESSAGE_BYTES, length,
};
use srm_entries::{SECOND, SESSION_SHARE, SHORTEST_INTERVAL};
use srm_names::{Echo, Items, MEMBERS, Member, Name, Page, Stream};
use srm_outbox::Outgoing;
use srm_timers::Words;
use std::alloc::{AllocError, Global};

/// The longest datagram in bytes, with as many rows and echoes as it may have.
const LONGEST_SESSION_MESSAGE: usize = HEAD_BYTES
    + SESSION_MESSAGE_BYTES
    + LONGEST_LIST as usize * (NAME_BYTES + ECHO_BYTES);

/// The longest interval in microseconds: that of 32 members at one byte a second.
pub const LONGEST_INTERVAL: u64 = SESSION_SHARE
    * MEMBERS as u64
    * LONGEST_SESSION_MESSAGE as u64
    * SECOND;

impl<W: Words + Drop> Agent<W> {
    /// The session message or the farewell that this member sends at a moment, in microseconds. Fails only if out of memory.
    pub(super) fn session_message(
        &self,
        farewell: bool,
        moment: u64,
    ) -> Result<Outgoing, AllocError>
        requires { moment ≤ LATEST_MOMENT }
        ensures { IfOk result (λ message. IsSessionMessageSpelled self.now moment farewell message) }
    {
        let message = self.message(farewell, moment)?;
        Outgoing::new(self.alloc, self.config.session(), message)
    }

    /// The same message, not yet encoded.
    fn message(&self, farewell: bool, moment: u64) -> Result<Datagram, AllocError>
        requires { moment ≤ LATEST_MOMENT }
        ensures { IfOk result (λ message. IsSessionMessageOf self.now moment farewell message) }
    {
        let rows = self.rows(farewell)?;
        let echoes = self.echoes(moment)?;
        self.is_in_range();
        Ok(session(
            self.config.me(),
            moment,
            farewell,
            self.showing,
            rows,
            echoes,
        ))
    }

    /// Does nothing. Its contract says that a datagram can name this member and the page that it shows.
    fn is_in_range(&self)
        ensures me { self.now.config.me < MEMBERS }
        ensures showing { is_page self.now.showing }
    {
        let _ = self.config.me().number();
        let shown = self.showing;
        page_in_range(shown);
    }

    /// The echoes that are owed at a moment, in microseconds.
    fn echoes(&self, moment: u64) -> Result<Vec<Echo>, AllocError>
        requires { moment ≤ LATEST_MOMENT }
        ensures { IfOk result (λ echoes. AreOwed self.now moment echoes.items) }
    {
        self.distances.echoes(self.alloc, moment)
    }

    /// The rows of the page shown; in a farewell, those of all that this member drew.
    #[tactic(auto, using(crate::proofs::Rows::rows_of_page, crate::proofs::Rows::rows_of_own))]
    fn rows(&self, farewell: bool) -> Result<Vec<Name>, AllocError>
        ensures { IfOk result (λ rows. AreDueRows self.now farewell rows.items) }
    {
        if farewell {
            return self.rows_of(&self.own_streams()?);
        }
        self.rows_of(&self.streams_shown()?)
    }

    /// The streams of the page shown, in order, one for each member of the roster.
    fn streams_shown(&self) -> Result<Vec<Stream>, AllocError>
        ensures { IfOk result (λ streams. AreShown self.now streams.items) }
    {
        let mut streams = Vec::new(self.alloc);
        for number in 0..self.config.members() {
            streams.push(Stream {
                source: member(number),
                page: self.showing,
            })?;
        }
        Ok(streams)
    }

    /// The streams of this member, in order.
    fn own_streams(&self) -> Result<Vec<Stream>, AllocError>
        ensures { IfOk result (λ streams. AreOwnStreams self.now streams.items) }
    {
        let pages = self.pages_in_order()?;
        own(self.alloc, self.config.me(), &pages)
    }

    /// The pages that have slots, in order.
    fn pages_in_order(&self) -> Result<Vec<Page>, AllocError>
        ensures { IfOk result (λ pages. AreInOrder self.now.pages pages.items) }
    {
        let mut pages = Vec::from_slice(self.alloc, self.pages.as_slice())?;
        pages.sort_unstable();
        Ok(pages)
    }

    /// The rows of streams, in their order: the greatest number known of each, unless nothing is.
    fn rows_of(&self, streams: &[Stream]) -> Result<Vec<Name>, AllocError>
        ensures { IfOk result (λ rows. AreRowsOf self.now streams.now rows.items) }
    {
        let mut rows = Vec::new(self.alloc);
        for stream in streams {
            if let Some(row) = self.row(stream) {
                rows.push(row)?;
            }
        }
        Ok(rows)
    }

    /// The row of a stream, if anything of it is known.
    fn row(&self, stream: &Stream) -> Option<Name>
        ensures { IsRow self.now stream.now result }
    {
        stream_in_range(stream);
        numbered(stream, self.store.known(*stream))
    }

    /// How long after a session message the next one is due, in microseconds.
    pub(super) fn session_interval(&self, message: &Datagram) -> u64
        requires { IsSpellable message.now }
        ensures value { (c : AConfig) (made : ℕ) (past : List AnEntry) → AgentFits c made past self.now → result ≡ session_interval c past message.now }
        ensures longest { result ≤ LONGEST_INTERVAL }
    {
        interval_after(
            self.members_remaining(),
            length(message),
            self.config.rate(),
        )
    }

    /// How many members of the roster aren't known to have left, this one among them.
    fn members_remaining(&self) -> u8
        ensures value { (c : AConfig) (made : ℕ) (past : List AnEntry) → AgentFits c made past self.now → result ≡ members_remaining c past }
        ensures few { result ≤ MEMBERS }
    {
        let mut count = 0;
        for number in 0..self.config.members() {
            count += self.once(member(number));
        }
        count
    }

    /// 1 for a member that isn't known to have left, else 0.
    #[tactic(auto, using(crate::proofs::Leavers::once_unless_left))]
    fn once(&self, member: Member) -> u8
        ensures { CountsOnce self.now member result }
    {
        if self.has_left(member) { 0 } else { 1 }
    }
}

/// The interval after a session message of so many bytes, with so many members left, at a rate in bytes a second. Rounded down.
fn interval_after(members: u8, bytes: usize, rate: u32) -> u64
    requires members { members ≤ MEMBERS }
    requires bytes { bytes ≤ LONGEST_SESSION_MESSAGE }
    requires rate { LEAST_RATE ≤ rate }
    ensures value { result ≡ max SHORTEST_INTERVAL (SESSION_SHARE * members * bytes * SECOND / rate) }
    ensures longest { result ≤ LONGEST_INTERVAL }
{
    let bytes = SESSION_SHARE * u64::from(members) * bytes as u64;
    SHORTEST_INTERVAL.max(bytes * SECOND / u64::from(rate))
}

/// The streams of a member on these pages.
fn own(alloc: Global, source: Member, pages: &[Page]) -> Result<Vec<Stream>, AllocError>
    ensures { IfOk result (λ streams. streams.items ≡ map (stream_on source) pages.now) }
{
    pages
        .iter()
        .map(|page| Stream {
            source,
            page: *page,
        })
        .collect(alloc)
}

/// The name of this number in a stream, and `None` for 0.
#[tactic(auto, using(crate::proofs::Rows::row_is))]
fn numbered(stream: &Stream, known: u32) -> Option<Name>
    requires { known ≤ DRAWOPS }
    ensures { result ≡ option_map (named stream.now) (if_positive known) }
{
    stream.at(known)
}

fn session(
    sender: Member,
    sent: u64,
    farewell: bool,
    shown: Page,
    rows: Vec<Name>,
    echoes: Vec<Echo>,
) -> Datagram
    ensures { result ≡ Session sender sent farewell shown rows.items echoes.items }
{
    Datagram::Session {
        sender,
        sent,
        farewell,
        shown,
        rows: Items::new(rows),
        echoes: Items::new(echoes),
    }
}
