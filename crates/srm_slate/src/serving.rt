//! What the server answers over HTTP, at once.

ghost use Rattle.std.specs.Prelude.{◌≡◌, OnErr};

use crate::asked::{asked_by, header};
use crate::asking::{seen_in, tab_in};
use crate::cursor::Cursor;
use crate::door::Face;
use crate::easel::Easel;
use crate::guard::{Judged, Wish};
use crate::hand::Hand;
use crate::page::{POLICY, put_page};
use crate::slate::Slate;
use crate::strokes::{End, Strokes};
use crate::telling::text_of;
use bytes::{BufMut, Bytes};
use http::header::{
    CACHE_CONTROL, CONNECTION, CONTENT_SECURITY_POLICY, CONTENT_TYPE, REFERRER_POLICY, UPGRADE,
    X_CONTENT_TYPE_OPTIONS, X_FRAME_OPTIONS,
};
use http::{HeaderName, HeaderValue, Request, StatusCode};
use http_server::{Response, Service};
use std::alloc::{AllocError, Global};
use std::sync::{Arc, Wait};
use std::time::Clock;
use websocket::handshake::server::accept_key;

/// A member as its browsers see it.
#[derive(Drop)]
pub struct Shown<K: Easel + Drop> {
    /// What the server shows, and to whom.
    pub face: Face,
    /// Tells a page whether this is another run than the one that it saw.
    pub run: u64,
    /// What there is to show.
    pub slate: Arc<Slate, Global>,
    /// What strokes go to.
    pub easel: K,
}

/// What a tab says of itself that opens a WebSocket.
#[derive(Clone, Copy, Debug, PartialEq, Eq)]
pub struct Opened {
    /// How much it was told.
    pub at: Cursor,
    /// The number that it gave itself. Its strokes are known by it.
    pub tab: u64,
}

/// Answers requests, and notes what became of them.
#[derive(Drop)]
pub struct Desk<R: Wait + Clock + Drop, K: Easel + Drop> {
    /// The runtime.
    pub rt: R,
    /// The allocator for answers.
    pub alloc: Global,
    /// The member.
    pub shown: Shown<K>,
    /// How many requests were answered.
    pub answered: u64,
    /// Whether one of them was granted.
    pub has_granted: bool,
    /// Whether there is room for one more tab.
    pub has_room: bool,
    /// What the tab says whose WebSocket was opened.
    pub opened: Option<Opened>,
}

impl<R: Wait + Clock + Drop, K: Easel + Drop> Service for Desk<R, K> {
    ghost answers = { λ _ _ _ _. Unit {0} };

    fn call(
        &mut self,
        request: &Request<Bytes>,
        response: &mut Response,
    ) -> Result<(), AllocError> {
        put_guards(response)?;
        let judged = self.shown.face.guard.judge(&asked_by(request));
        match judged {
            Judged::Granted(wish) => self.grant(wish, request, response)?,
            Judged::Misdirected => response.status = StatusCode::MISDIRECTED_REQUEST,
            Judged::Unknown => response.status = StatusCode::NOT_FOUND,
            Judged::Foreign => response.status = StatusCode::FORBIDDEN,
        }
        self.answered = self.answered.saturating_add(1);
        if matches!(judged, Judged::Granted(_)) {
            self.has_granted = true;
        }
        Ok(())
    }
}

impl<R: Wait + Clock + Drop, K: Easel + Drop> Desk<R, K> {
    fn grant(
        &mut self,
        wish: Wish,
        request: &Request<Bytes>,
        response: &mut Response,
    ) -> Result<(), AllocError>
        ensures { OnErr result (self.new ≡ self.old) }
    {
        match wish {
            Wish::Page => show_page(response),
            Wish::Told => self.tell(request.uri().query().unwrap_or(""), response),
            Wish::Live => self.open(request, response),
            Wish::Draw => self.draw(request.body(), response),
            Wish::Leave => {
                self.shown.easel.leave(&self.rt);
                Ok(())
            }
        }
    }

    // Tells what is new.
    fn tell(&self, query: &str, response: &mut Response) -> Result<(), AllocError> {
        let at = seen_in(query);
        let look = self.shown.slate.lock(&self.rt).look(at.from, at.seen)?;
        let text = text_of(self.alloc, &self.shown.face, self.shown.run, &look)?;
        response.add_header(CONTENT_TYPE, HeaderValue::from_static("application/json"))?;
        response.body.put_slice(text.as_str().as_bytes())
    }

    // Lets a tab go on with a WebSocket.
    fn open(&mut self, request: &Request<Bytes>, response: &mut Response) -> Result<(), AllocError>
        ensures { OnErr result (self.new ≡ self.old) }
    {
        if !self.has_room {
            response.status = StatusCode::SERVICE_UNAVAILABLE;
            return Ok(());
        }
        if !is_named(request, "upgrade", b"websocket")
            || !is_named(request, "sec-websocket-version", b"13")
        {
            response.status = StatusCode::UPGRADE_REQUIRED;
            return response.add_header(UPGRADE, HeaderValue::from_static("websocket"));
        }
        let query = request.uri().query().unwrap_or("");
        let key = header(request, "sec-websocket-key").unwrap_or(b"");
        let (Some(tab), Ok(accept)) = (tab_in(query), accept_key(key)) else {
            response.status = StatusCode::BAD_REQUEST;
            return Ok(());
        };
        put_upgrade(self.alloc, &accept, response)?;
        self.opened = Some(Opened {
            at: seen_in(query),
            tab,
        });
        Ok(())
    }

    // Draws a stroke a line, until one isn't taken, and tells how many were. Nothing is drawn behind a line that is no stroke. Who asks so again draws again. Fails only if out
    // of memory before anything is drawn.
    fn draw(&mut self, lines: &Bytes, response: &mut Response) -> Result<(), AllocError>
        ensures { OnErr result (self.new ≡ self.old) }
    {
        let strokes = Strokes::new(lines.clone()?, 1);
        // Something may be drawn that can't be told.
        if self.draw_all(strokes, response).is_err() {
            response.status = StatusCode::INTERNAL_SERVER_ERROR;
        }
        Ok(())
    }

    fn draw_all(&mut self, strokes: Strokes, response: &mut Response) -> Result<(), AllocError> {
        let mut strokes = strokes;
        let mut hand = Hand::new();
        match strokes.draw(&self.rt, self.alloc, &mut self.shown.easel, &mut hand)? {
            End::Over => response.status = StatusCode::GONE,
            End::Bad => response.status = StatusCode::BAD_REQUEST,
            End::All | End::Full | End::Ahead => {}
        }
        let taken = strokes.taken();
        let text = format!(in self.alloc; "{taken}")?;
        response.add_header(CONTENT_TYPE, HeaderValue::from_static("text/plain"))?;
        response.body.put_slice(text.as_str().as_bytes())
    }
}

fn put_upgrade(alloc: Global, accept: &[u8], response: &mut Response) -> Result<(), AllocError> {
    let accept = HeaderValue::from_bytes(alloc, accept).map_err(|_| AllocError)?;
    response.status = StatusCode::SWITCHING_PROTOCOLS;
    response.add_header(CONNECTION, HeaderValue::from_static("upgrade"))?;
    response.add_header(UPGRADE, HeaderValue::from_static("websocket"))?;
    response.add_header(HeaderName::from_static("sec-websocket-accept"), accept)
}

// Whether a header has this value, whatever the case.
fn is_named(request: &Request<Bytes>, name: &str, value: &[u8]) -> bool {
    header(request, name).is_some_and(|text| text.eq_ignore_ascii_case(value))
}

fn show_page(response: &mut Response) -> Result<(), AllocError> {
    response.add_header(
        CONTENT_TYPE,
        HeaderValue::from_static("text/html; charset=utf-8"),
    )?;
    response.add_header(CONTENT_SECURITY_POLICY, HeaderValue::from_static(POLICY))?;
    put_page(&mut response.body)
}

// What stands on each answer: nothing is stored, guessed, framed or read by another site.
fn put_guards(response: &mut Response) -> Result<(), AllocError> {
    response.add_header(CACHE_CONTROL, HeaderValue::from_static("no-store"))?;
    response.add_header(X_CONTENT_TYPE_OPTIONS, HeaderValue::from_static("nosniff"))?;
    response.add_header(X_FRAME_OPTIONS, HeaderValue::from_static("DENY"))?;
    response.add_header(REFERRER_POLICY, HeaderValue::from_static("no-referrer"))?;
    response.add_header(
        HeaderName::from_static("cross-origin-resource-policy"),
        HeaderValue::from_static("same-origin"),
    )
}
