//! What a request says of who asks, and for what.

use bytes::Bytes;
use http::Request;
use std::marker::Model;

/// How a request asks.
#[derive(Clone, Copy, Debug, PartialEq, Eq)]
pub enum Method {
    /// `GET`
    Get,
    /// `POST`
    Post,
    /// Any other.
    Other,
}

/// What a request says of who asks, and for what: its method, its path, and the first value of each header.
#[derive(Drop)]
pub struct Asked<'a> {
    /// Its method.
    pub method: Method,
    /// Its path, without the query.
    pub path: &'a [u8],
    /// The server that it names: in its target, if that has one, else in the header `Host`. Where both have one and they differ, it names none.
    pub host: Option<&'a [u8]>,
    /// The header `Sec-Fetch-Site`: from which kind of site the browser says that it comes.
    pub site: Option<&'a [u8]>,
    /// The header `Origin`: the site that the browser says that it comes from.
    pub origin: Option<&'a [u8]>,
    /// Whether it has the header `x-srm`, which a page of another site can't put on a request without asking this server first.
    pub is_marked: bool,
}

impl<'a> Model for Asked<'a> {
    ghost use Rattle.std.specs.Prelude.{option_map};
    ghost use Rattle.srm_slate.specs.Guards.{Asking};

    ghost Value = { Asking };

    ghost view = { λ a. record { method = a.method; path = a.path.now; host = option_map (λ t. t.now) a.host; site = option_map (λ t. t.now) a.site; origin = option_map (λ t. t.now) a.origin; is_marked = a.is_marked } };
}

/// Returns what a request says.
pub fn asked_by(request: &Request<Bytes>) -> Asked<'_> {
    Asked {
        method: method_of(request.method().as_str()),
        path: request.uri().path().as_bytes(),
        host: host_of(request),
        site: header(request, "sec-fetch-site"),
        origin: header(request, "origin"),
        is_marked: header(request, "x-srm").is_some(),
    }
}

fn method_of(name: &str) -> Method {
    match name {
        "GET" => Method::Get,
        "POST" => Method::Post,
        _ => Method::Other,
    }
}

// A target with an authority stands above the header (RFC 9112, section 3.2.2). One that contradicts it is nobody's.
fn host_of(request: &Request<Bytes>) -> Option<&[u8]> {
    let host = header(request, "host");
    match request.uri().authority() {
        None => host,
        Some(authority) => host.filter(|host| *host == authority.as_str().as_bytes()),
    }
}

/// Returns the first header with this name.
pub fn header<'a>(request: &'a Request<Bytes>, name: &str) -> Option<&'a [u8]> {
    let value = request.headers().get(name)?;
    Some(value.as_bytes())
}
