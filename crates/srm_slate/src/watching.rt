//! A tab that watches by a WebSocket.

ghost use Rattle.std.specs.Prelude.{◌≡◌, []};
ghost use Rattle.srm_slate.specs.Tabs.{told_if};

use crate::cursor::Cursor;
use crate::easel::Easel;
use crate::hands::Hands;
use crate::sheet::Sheet;
use crate::strokes::{End, Strokes};
use crate::tab::Tab;
use crate::went::Went;
use bytes::ByteStr;
use mio::net::TcpStream;
use std::alloc::{AllocError, Global};
use std::io::ErrorKind;
use std::marker::Model;
use std::sync::Wait;
use std::time::Instant;
use tungstenite::{Error, Message, NoMask, Role, WebSocket, WebSocketConfig};

/// The longest message of a tab, in bytes.
pub const LONGEST: usize = 70_000;

/// A tab, and its WebSocket. Contracts see what it was told: [`tell`](Watching::tell) is the only way.
#[derive(Drop)]
pub struct Watching {
    alloc: Global,
    socket: WebSocket<TcpStream, NoMask>,
    tab: Tab,
    hand: usize,
    heard_at: Instant,
    full_since: Option<Instant>,
    // What it draws and the member has no place for yet. Until then it isn't read.
    strokes: Option<Strokes>,
    has_said_farewell: bool,
}

impl Model for Watching {
    ghost use Rattle.srm_slate.specs.Tabs.{TabView};

    ghost Value = { TabView };

    ghost view = { λ w. w.tab };
}

/// What a tab's connection begins with.
#[derive(Drop)]
pub struct Beginning {
    /// The connection.
    pub stream: TcpStream,
    /// What was read of it behind the request that opened the WebSocket.
    pub read: Vec<u8>,
    /// How much the tab was told.
    pub at: Cursor,
    /// The key of what it drew.
    pub hand: usize,
    /// When it came.
    pub now: Instant,
}

impl Watching {
    /// Goes on with a connection.
    pub fn new(alloc: Global, beginning: Beginning) -> Watching
        ensures { result ≡ record { first = beginning.at.from; at = beginning.at; frames = [] } }
    {
        let config = WebSocketConfig::default()
            .read_buffer_size(4_096)
            .write_buffer_size(0)
            .max_message_size(Some(LONGEST))
            .max_frame_size(Some(LONGEST));
        let Beginning {
            stream,
            read,
            at,
            hand,
            now,
        } = beginning;
        Watching {
            alloc,
            socket: WebSocket::from_partially_read(
                alloc,
                stream,
                NoMask,
                read,
                Role::Server,
                Some(config),
            ),
            tab: Tab::new(at),
            hand,
            heard_at: now,
            full_since: None,
            strokes: None,
            has_said_farewell: false,
        }
    }

    /// Returns how much it was told.
    pub fn at(&self) -> Cursor
        ensures { result ≡ self.now.at }
    {
        self.tab.at()
    }

    /// Returns the key of what it drew.
    pub fn hand(&self) -> usize {
        self.hand
    }

    /// Returns when it was heard last.
    pub fn heard_at(&self) -> Instant {
        self.heard_at
    }

    /// Returns since when its socket takes no more, if it doesn't.
    pub fn full_since(&self) -> Option<Instant> {
        self.full_since
    }

    /// Returns whether it takes what it is told.
    pub fn is_listening(&self) -> bool {
        self.full_since.is_none() && !self.has_said_farewell
    }

    /// Returns whether strokes wait for a place.
    pub fn is_stuck(&self) -> bool {
        self.strokes.is_some()
    }

    /// The connection.
    pub fn stream(&mut self) -> &mut TcpStream {
        self.socket.get_mut()
    }

    /// Sends what waits, draws what it drew, and reads the next message.
    pub fn step<R: Wait, K: Easel>(
        &mut self,
        rt: &R,
        easel: &mut K,
        hands: &mut Hands,
        now: Instant,
    ) -> Went
        ensures { self.new ≡ self.old }
    {
        match self.flush() {
            Went::GoesOn => {}
            went => return went,
        }
        match self.draw(rt, easel, hands, now) {
            Went::GoesOn => self.hear(now),
            went => went,
        }
    }

    // Sends what waits. Who takes nothing isn't read either.
    fn flush(&mut self) -> Went
        ensures { self.new ≡ self.old }
    {
        if self.full_since.is_none() {
            return Went::GoesOn;
        }
        match self.socket.flush() {
            Ok(()) => {
                self.full_since = None;
                Went::GoesOn
            }
            Err(error) => went_by(&error),
        }
    }

    // Reads the next message.
    fn hear(&mut self, now: Instant) -> Went
        ensures { self.new ≡ self.old }
    {
        let message = match self.socket.read() {
            Ok(message) => message,
            Err(error) => return went_by(&error),
        };
        self.heard_at = now;
        match message {
            Message::Text(text) => match Strokes::numbered(text.into_bytes()) {
                Some(strokes) => {
                    self.strokes = Some(strokes);
                    Went::GoesOn
                }
                None => Went::Ends,
            },
            Message::Binary(_) => Went::Ends,
            _ => Went::GoesOn,
        }
    }

    // Draws what waits, and then tells the tab how much is settled. It waits while the member is full.
    fn draw<R: Wait, K: Easel>(
        &mut self,
        rt: &R,
        easel: &mut K,
        hands: &mut Hands,
        now: Instant,
    ) -> Went
        ensures { self.new ≡ self.old }
    {
        let Some(mut strokes) = self.strokes.take() else {
            return Went::GoesOn;
        };
        let Some(hand) = hands.get(self.hand) else {
            return Went::Ends;
        };
        let end = match strokes.draw(rt, self.alloc, easel, hand) {
            Ok(End::Full) => {
                self.strokes = Some(strokes);
                return Went::Waits;
            }
            Ok(End::All) => "",
            Ok(End::Over) => "over",
            Ok(End::Bad) => "bad",
            Ok(End::Ahead) => "ahead",
            Err(AllocError) => return Went::Ends,
        };
        let settled = hand.settled();
        let Ok(text) = format!(in self.alloc; "{{\"took\":{settled},\"end\":\"{end}\"}}") else {
            return Went::Ends;
        };
        self.say(text, now)
    }

    /// Tells the tab in which run it is, and up to which number its strokes are settled.
    pub fn greet(&mut self, run: u64, settled: u64, now: Instant) -> Went
        ensures { self.new ≡ self.old }
    {
        let Ok(text) = format!(in self.alloc;
            "{{\"took\":{settled},\"end\":\"\",\"run\":\"{run:x}\"}}"
        ) else {
            return Went::Ends;
        };
        self.say(text, now)
    }

    /// Tells the tab what is new, if this is for a tab that was told so much; else it says nothing. If out of memory, or where the connection ended, it is
    /// counted as told, and the tab is gone.
    pub fn tell(&mut self, sheet: &Sheet, now: Instant) -> Went
        ensures { self.new ≡ told_if sheet.now self.old }
    {
        if !self.tab.tell(sheet) {
            return Went::GoesOn;
        }
        match sheet.text() {
            Ok(text) => self.send(Message::Text(text), now),
            Err(AllocError) => Went::Ends,
        }
    }

    /// Has the tab answer, so that it is heard if it is still there.
    pub fn ping(&mut self, now: Instant) -> Went
        ensures { self.new ≡ self.old }
    {
        self.send(Message::Ping(tungstenite::Bytes::new()), now)
    }

    /// Says farewell. The tab is told nothing more, and its own farewell is awaited.
    pub fn close(&mut self)
        ensures { self.new ≡ self.old }
    {
        self.has_said_farewell = true;
        let _ = self.socket.close(None);
    }

    fn say(&mut self, text: String, now: Instant) -> Went
        ensures { self.new ≡ self.old }
    {
        match ByteStr::from_string(text) {
            Ok(text) => self.send(Message::Text(text), now),
            Err(_) => Went::Ends,
        }
    }

    fn send(&mut self, message: Message, now: Instant) -> Went
        ensures { self.new ≡ self.old }
    {
        match self.socket.send(message) {
            Ok(()) => {
                self.full_since = None;
                Went::GoesOn
            }
            Err(error) => {
                self.full_since = Some(self.full_since.unwrap_or(now));
                match went_by(&error) {
                    Went::Waits => Went::GoesOn,
                    went => went,
                }
            }
        }
    }
}

// What becomes of a tab by an error of its socket.
fn went_by(error: &Error) -> Went {
    if is_wait(error) {
        Went::Waits
    } else {
        Went::Ends
    }
}

// Whether a call is to be made again once the socket is ready.
fn is_wait(error: &Error) -> bool {
    match error {
        Error::Io(cause) => {
            matches!(cause.kind(), ErrorKind::WouldBlock | ErrorKind::Interrupted)
        }
        _ => false,
    }
}
