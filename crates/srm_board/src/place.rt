//! Where a board is served.

ghost use Rattle.std.specs.Prelude.{◌≡◌, ◌↔◌, ◌++◌, true, false, codes, string_bytes, IfOk, IsTrue};
ghost use Rattle.srm_board.specs.Places.{IsAnywhere, IsServedAt, IsTokenRoot, hosts_of};

use crate::host_names::host_names;
use srm_slate::{Guard, TokenSource, new_token};
use std::alloc::{AllocError, Global};
use std::io;
use std::net::SocketAddr;

/// Where a board is served, and who may ask there.
#[derive(Clone, Copy, Debug, PartialEq, Eq)]
pub struct Place {
    /// The address; with port 0 the system chooses a port.
    pub http: SocketAddr,
    /// Whether the address of its page has a token.
    pub has_token: bool,
}

impl Place {
    /// What the paths of its server begin with: `/`, or with a new token of this source `/TOKEN/`.
    pub fn new_root<S: TokenSource>(&self, source: &S, alloc: Global) -> io::Result<String>
        ensures token { self.now.has_token ≡ true → IfOk result (λ root. IsTokenRoot (S.gives source.now) (string_bytes root)) }
        ensures bare { self.now.has_token ≡ false → IfOk result (λ root. string_bytes root ≡ codes "/") }
    {
        if self.has_token {
            token_root(source, alloc)
        } else {
            Ok(String::from_str(alloc, "/")?)
        }
    }

    /// Returns the place of a server that was bound here and has this port: where port 0 was asked for, the system chose it.
    pub fn with_port(&self, port: u16) -> Place
        ensures http { IsServedAt self.now.http result.http }
        ensures token { result.has_token ≡ self.now.has_token }
    {
        let mut place = *self;
        if self.http.port() == 0 {
            place.http.set_port(port);
        }
        place
    }

    /// Returns who may ask there: who names its address, or `localhost` where that is a loopback address. A server at every address of the machine answers to any name: then the token
    /// alone says who may ask.
    pub fn guard(&self, alloc: Global, root: String) -> Result<Guard, AllocError>
        ensures hosts { IfOk result (λ g. g.hosts ≡ hosts_of self.now.http) }
        ensures anywhere { IfOk result (λ g. IsTrue g.is_anywhere ↔ IsAnywhere self.now.http) }
        ensures root { IfOk result (λ g. g.root ≡ string_bytes root) }
    {
        let hosts = host_names(alloc, &self.http)?;
        Ok(Guard::new(hosts, self.is_anywhere(), root))
    }

    // Whether it is served at every address of the machine.
    fn is_anywhere(&self) -> bool
        ensures { IsTrue result ↔ IsAnywhere self.now.http }
    {
        self.http.ip().is_unspecified()
    }
}

// The root with a new token.
fn token_root<S: TokenSource>(source: &S, alloc: Global) -> io::Result<String>
    ensures { IfOk result (λ root. IsTokenRoot (S.gives source.now) (string_bytes root)) }
{
    let token = new_token(source, alloc)?;
    Ok(root_of(alloc, token)?)
}

// The root with this token.
fn root_of(alloc: Global, token: String) -> Result<String, AllocError>
    ensures { IfOk result (λ root. string_bytes root ≡ codes "/" ++ (string_bytes token ++ codes "/")) }
{
    format!(in alloc; "/{token}/")
}
