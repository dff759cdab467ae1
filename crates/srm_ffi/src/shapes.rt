//! The structs that cross to C, in C's layout. `capi/srm.h` declares the same, and `capi/tests/structs.py` compares them.

ghost use Rattle.std.specs.Prelude.{◌≡◌, ◌↔◌, IfSome, IsSome};
ghost use Rattle.srm_entries.specs.Configs.{IsConfig};
ghost use Rattle.srm_ffi.specs.Shapes.{config_of, raw_heard, raw_message, raw_name, raw_outstanding, raw_page, raw_ticked, with_config};

use crate::codes::{cause_of, decode_fault_of, of_state, or_never};
use srm_agent::{Config, Heard, Outstanding, Settings};
use srm_names::{Member, Name, Page, PageMsg};
use srm_seat::TickCounts;

/// A page.
#[repr(C)]
#[derive(Clone, Copy)]
pub struct RawPage {
    /// The member that began it, 0 to 31.
    pub creator: u8,
    /// Its number among that member's pages.
    pub number: u16,
}

/// The name of a drawop.
#[repr(C)]
#[derive(Clone, Copy)]
pub struct RawName {
    /// Its page.
    pub page: RawPage,
    /// The member that drew it, 0 to 31.
    pub source: u8,
    /// Its number in its stream, 1 to 65,536.
    pub number: u32,
}

/// The settings of a member. `capi/srm.c` reads `size`, the bytes of the caller's struct, and fills the rest with defaults.
#[repr(C)]
#[derive(Clone, Copy)]
pub struct RawConfig {
    /// The bytes of the caller's struct.
    pub size: u32,
    /// The number of the session.
    pub session: u32,
    /// Bytes a second that it may send, 1 to 100,000,000.
    pub rate: u32,
    /// Bytes that its bucket holds, 1,051 to 1,000,000.
    pub depth: u32,
    /// The member, below `members`.
    pub me: u8,
    /// How many members there are, 1 to 32.
    pub members: u8,
    /// The least wait of a request, in distances, 0 to 16.
    pub c1: u8,
    /// How many distances more it waits at most, 0 to 16.
    pub c2: u8,
    /// The least wait of a repair, in distances, 0 to 16.
    pub d1: u8,
    /// How many distances more it waits at most, 0 to 16.
    pub d2: u8,
    /// The floor under distances to others, in microseconds, 1 to 10,000,000.
    pub least_distance: u64,
}

/// What became of bytes that were heard: how many timers they set, and why they were ignored.
#[repr(C)]
#[derive(Clone, Copy)]
pub struct RawHeard {
    /// How many timers were set.
    pub timers: usize,
    /// Why they were ignored, 1 to 7; 0 if they were accepted.
    pub cause: u8,
    /// What is wrong with bytes that are no datagram, 1 to 12; else 0.
    pub fault: u8,
}

/// What a tick left to be taken.
#[repr(C)]
#[derive(Clone, Copy)]
pub struct RawTicked {
    /// How many names it requested.
    pub requests: usize,
    /// How many names it repaired.
    pub repairs: usize,
    /// How many datagrams are to be sent.
    pub datagrams: usize,
    /// Whether the member is active, 1, leaving, 2, or gone, 3.
    pub state: u8,
}

/// What a member misses, when its timers expire, what waits to be sent, and whether it takes part.
#[repr(C)]
#[derive(Clone, Copy)]
pub struct RawOutstanding {
    /// When the first request timer expires, in microseconds; 2^64 - 1 if none runs, and so nothing is missing.
    pub next_request_at: u64,
    /// When the first repair timer expires, in microseconds; 2^64 - 1 if none runs.
    pub next_repair_at: u64,
    /// How many requests and repairs for the page shown wait to be sent.
    pub waiting_shown: usize,
    /// How many datagrams of new data wait to be sent.
    pub waiting_new: usize,
    /// How many requests and repairs for other pages wait to be sent.
    pub waiting_other: usize,
    /// How many names are missing, over all streams.
    pub missing: u32,
    /// Whether the member is active, 1, leaving, 2, or gone, 3.
    pub state: u8,
}

/// A message of a page feed without its body.
#[repr(C)]
#[derive(Clone, Copy)]
pub struct RawMessage {
    /// When the drawop was drawn, in microseconds of its source's clock.
    pub stamp: u64,
    /// The bytes of its body.
    pub length: usize,
    /// The page, the drawop's name, or the member that left.
    pub name: RawName,
    /// 1 the page, 2 a drawop, 3 a member that left, 4 the close.
    pub kind: u8,
}

/// What is wrong with a text that is no room, without its words.
#[repr(C)]
#[derive(Clone, Copy)]
pub struct RawRoomFault {
    /// The line, from 1; 0 if none shows it.
    pub line: usize,
    /// The bytes of the words.
    pub length: usize,
    /// What it is, 1 to 12.
    pub kind: u8,
}

impl RawConfig {
    /// Writes settings. The size stays.
    pub fn set(&mut self, config: Config)
        ensures { self.new ≡ with_config config self.old }
    {
        self.session = config.session();
        self.rate = config.rate();
        self.depth = config.depth();
        self.me = config.me().number();
        self.members = config.members();
        self.c1 = config.c1();
        self.c2 = config.c2();
        self.d1 = config.d1();
        self.d2 = config.d2();
        self.least_distance = config.least_distance();
    }

    /// Returns the settings; `None` if one is out of its range, or the member isn't in the roster.
    pub fn config(&self) -> Option<Config>
        ensures known { IsSome result ↔ IsConfig (config_of self.now) }
        ensures value { IfSome result (λ config. config ≡ config_of self.now) }
    {
        let me = Member::new(self.me)?;
        let settings = Settings {
            rate: self.rate,
            depth: self.depth,
            c1: self.c1,
            c2: self.c2,
            d1: self.d1,
            d2: self.d2,
            least_distance: self.least_distance,
        };
        Config::with(me, self.members, self.session, settings)
    }
}

impl RawPage {
    /// Returns a page as C reads it.
    pub fn of(page: Page) -> RawPage
        ensures { result ≡ raw_page page }
    {
        RawPage {
            creator: page.creator.number(),
            number: page.number,
        }
    }
}

impl RawName {
    /// Returns a name as C reads it.
    pub fn of(name: Name) -> RawName
        ensures { result ≡ raw_name name }
    {
        RawName {
            page: RawPage::of(name.stream().page),
            source: name.source().number(),
            number: name.number(),
        }
    }
}

impl RawHeard {
    /// Returns what became of a datagram as C reads it.
    pub fn of(heard: &Heard) -> RawHeard
        ensures { result ≡ raw_heard heard.now }
    {
        RawHeard {
            timers: heard.arms.as_slice().len(),
            cause: cause_of(heard.outcome),
            fault: decode_fault_of(heard.outcome),
        }
    }
}

impl RawTicked {
    /// Returns what a tick left as C reads it.
    pub fn of(counts: &TickCounts) -> RawTicked
        ensures { result ≡ raw_ticked counts.now }
    {
        RawTicked {
            requests: counts.requests,
            repairs: counts.repairs,
            datagrams: counts.datagrams,
            state: of_state(counts.state),
        }
    }
}

impl RawOutstanding {
    /// Returns what is outstanding as C reads it.
    pub fn of(outstanding: &Outstanding) -> RawOutstanding
        ensures { result ≡ raw_outstanding outstanding.now }
    {
        RawOutstanding {
            next_request_at: or_never(outstanding.next_request),
            next_repair_at: or_never(outstanding.next_repair),
            waiting_shown: outstanding.waiting_shown,
            waiting_new: outstanding.waiting_new,
            waiting_other: outstanding.waiting_other,
            missing: outstanding.missing,
            state: of_state(outstanding.state),
        }
    }
}

impl RawMessage {
    /// Returns a message without its body as C reads it. What its kind doesn't speak of is 0.
    pub fn of(message: &PageMsg) -> RawMessage
        ensures { result ≡ raw_message message.now }
    {
        match message {
            PageMsg::Open(page) => RawMessage::without_body(1, RawPage::of(*page), 0),
            PageMsg::Draw(drawop) => RawMessage {
                stamp: drawop.stamp,
                length: drawop.body.len(),
                name: RawName::of(drawop.name),
                kind: 2,
            },
            PageMsg::Left(source) => {
                RawMessage::without_body(3, RawPage::of(Page::first()), source.number())
            }
            PageMsg::Close => RawMessage::without_body(4, RawPage::of(Page::first()), 0),
        }
    }

    fn without_body(kind: u8, page: RawPage, source: u8) -> RawMessage
        ensures { result ≡ record { stamp = 0; length = 0; name = record { page = page; source = source; number = 0 }; kind = kind } }
    {
        RawMessage {
            stamp: 0,
            length: 0,
            name: RawName {
                page,
                source,
                number: 0,
            },
            kind,
        }
    }
}
