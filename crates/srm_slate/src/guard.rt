//! Who may ask, and for what.

ghost use Rattle.std.specs.Prelude.{◌≡◌, map, option_map, string_bytes};
ghost use Rattle.std.specs.List.{list_any};
ghost use Rattle.srm_slate.specs.Guards.{judged, same_text, wish_of, is_host, is_host_of, is_known, is_live_own, is_own, is_own_origin, is_same_origin, is_same_site};

use crate::asked::{Asked, Method};
use std::marker::Model;

const HTTP: &[u8] = b"http://";

const SAME_ORIGIN: &[u8] = b"same-origin";

const PAGE: &[u8] = b"";

const TOLD: &[u8] = b"told";

const LIVE: &[u8] = b"live";

const DRAW: &[u8] = b"draw";

const LEAVE: &[u8] = b"leave";

/// Whom a server answers: a request that names one of its hosts and the path of its page, and that comes from this page unless it asks for the page itself.
#[derive(Drop)]
pub struct Guard {
    // The server's address and its other names, as a browser's `Host` has them.
    hosts: Vec<String>,
    // Whether it answers to any other name too, as one at every address of the machine does.
    is_anywhere: bool,
    // What all of its paths begin with: `/`, or `/TOKEN/`.
    root: String,
}

impl Model for Guard {
    ghost use Rattle.std.specs.Prelude.{map, string_bytes};
    ghost use Rattle.srm_slate.specs.Guards.{Server};

    ghost Value = { Server };

    ghost view = { λ g. record { hosts = map string_bytes g.hosts.items; is_anywhere = g.is_anywhere; root = string_bytes g.root } };
}

/// What may be asked for.
#[derive(Clone, Copy, Debug, PartialEq, Eq)]
pub enum Wish {
    /// The page itself.
    Page,
    /// What is new.
    Told,
    /// A WebSocket: it tells a tab what is new, and the tab draws by it.
    Live,
    /// To draw strokes.
    Draw,
    /// That the member leaves.
    Leave,
}

/// What becomes of a request.
#[derive(Clone, Copy, Debug, PartialEq, Eq)]
pub enum Judged {
    /// It is answered.
    Granted(Wish),
    /// It names another host. A page of another site could pass as this server's, if its name were turned to this address.
    Misdirected,
    /// There is nothing at its path, or the token isn't in it.
    Unknown,
    /// It doesn't come from this server's own page.
    Foreign,
}

impl Guard {
    /// Makes a guard that answers to these names, each a host and port as `127.0.0.1:8080`, or with `is_anywhere` to any name, at paths that begin with `root`: `/`,
    /// or `/TOKEN/` with a [`new_token`](crate::new_token). Nothing checks that it ends with a slash. With `is_anywhere` the token alone keeps others out.
    pub fn new(hosts: Vec<String>, is_anywhere: bool, root: String) -> Guard
        ensures { result ≡ record { hosts = map string_bytes hosts.items; is_anywhere = is_anywhere; root = string_bytes root } }
    {
        Guard {
            hosts,
            is_anywhere,
            root,
        }
    }

    /// Decides what becomes of a request: `Misdirected` if it names none of the hosts, compared byte for byte, or none at all; else `Unknown` if there is nothing at
    /// its path for its method; else `Foreign` if it asks for more than the page and doesn't come from it. Takes no memory.
    pub fn judge(&self, asked: &Asked<'_>) -> Judged
        ensures { result ≡ judged self.now asked.now }
    {
        if !self.knows(asked.host) {
            return Judged::Misdirected;
        }
        let Some(name) = asked.path.strip_prefix(self.root.as_bytes()) else {
            return Judged::Unknown;
        };
        match wish_in(asked.method, name) {
            None => Judged::Unknown,
            Some(Wish::Page) => Judged::Granted(Wish::Page),
            Some(Wish::Live) if is_from_live(asked) => Judged::Granted(Wish::Live),
            Some(Wish::Live) => Judged::Foreign,
            Some(wish) if is_from_page(asked) => Judged::Granted(wish),
            Some(_) => Judged::Foreign,
        }
    }

    // Whether it names this server.
    fn knows(&self, host: Option<&[u8]>) -> bool
        ensures { result ≡ is_known self.now (option_map (λ h. h.now) host.entry) }
    {
        match host {
            Some(host) => self.is_anywhere || self.is_host(host),
            None => false,
        }
    }

    #[tactic(auto, using(crate::proofs::Hosts::any_of_map))]
    fn is_host(&self, host: &[u8]) -> bool
        ensures { result ≡ is_host self.now host.now }
    {
        is_one_of(self.hosts.as_slice(), host)
    }
}

fn is_one_of(hosts: &[String], host: &[u8]) -> bool
    ensures { result ≡ list_any (λ known. same_text (string_bytes known) host.now) hosts.now }
{
    hosts.iter().any(|known| known.as_bytes() == host)
}

// Whether it comes from this server's own page, as far as the browser says where it comes from. It says so with each POST.
fn is_from_page(asked: &Asked<'_>) -> bool
    ensures { result ≡ is_own asked.now }
{
    asked.is_marked && is_of_site(asked.site) && is_of_origin(asked)
}

// Whether a WebSocket comes from this server's own page. A script can't mark it, but every browser says its origin.
fn is_from_live(asked: &Asked<'_>) -> bool
    ensures { result ≡ is_live_own asked.now }
{
    is_of_site(asked.site) && is_of_own(asked)
}

fn is_of_own(asked: &Asked<'_>) -> bool
    ensures { result ≡ is_own_origin asked.now.host asked.now.origin }
{
    match asked.origin {
        Some(origin) => is_host_in(asked.host, origin.strip_prefix(HTTP)),
        None => false,
    }
}

fn is_of_origin(asked: &Asked<'_>) -> bool
    ensures { result ≡ is_same_origin asked.now.method asked.now.host asked.now.origin }
{
    match asked.origin {
        Some(origin) => is_host_in(asked.host, origin.strip_prefix(HTTP)),
        None => asked.method == Method::Get,
    }
}

fn is_host_in(host: Option<&[u8]>, named: Option<&[u8]>) -> bool
    ensures { result ≡ is_host_of (option_map (λ h. h.now) host.entry) (option_map (λ n. n.now) named.entry) }
{
    match (host, named) {
        (Some(host), Some(named)) => named == host,
        _ => false,
    }
}

fn is_of_site(site: Option<&[u8]>) -> bool
    ensures { result ≡ is_same_site (option_map (λ s. s.now) site.entry) }
{
    match site {
        Some(site) => site == SAME_ORIGIN,
        None => true,
    }
}

// What is asked for by the rest of a path.
fn wish_in(method: Method, name: &[u8]) -> Option<Wish>
    ensures { result ≡ wish_of method name.now }
{
    match method {
        Method::Get if name == PAGE => Some(Wish::Page),
        Method::Get if name == TOLD => Some(Wish::Told),
        Method::Get if name == LIVE => Some(Wish::Live),
        Method::Post if name == DRAW => Some(Wish::Draw),
        Method::Post if name == LEAVE => Some(Wish::Leave),
        _ => None,
    }
}
