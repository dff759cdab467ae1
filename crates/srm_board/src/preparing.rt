//! What a board needs before its member does anything.

ghost use Rattle.std.specs.Prelude.{◌≡◌, ◌↔◌, true, false, codes, vec_len, IfOk, IsTrue};
ghost use Rattle.srm_names.specs.declared.limits.TheConstants.{PAGES};
ghost use Rattle.srm_board.specs.Places.{IsAnywhere, IsServed, IsTokenRoot, hosts_of};

use crate::place::Place;
use crate::serving::Endpoint;
use crate::slate_sink::{SlateSink, slate_sinks};
use crate::turning::Turning;
use srm_agent::Config;
use srm_live::{Need, Tally};
use srm_options::Names;
use srm_slate::{Face, Slate, TokenSource};
use std::alloc::{AllocError, Global};
use std::io;
use std::net::{Net, SocketAddr, TcpListener, TcpStream};
use std::sync::{Arc, Wait};

/// What a board needs before its member does anything.
#[derive(Drop)]
pub struct Prepared<R: Wait + Drop> {
    /// Where it is served.
    pub endpoint: Endpoint,
    /// What its threads share.
    pub shared: Shared,
    /// One for each page worker.
    pub sinks: Vec<SlateSink<R>>,
}

/// What the threads of a board share.
#[derive(Drop)]
pub struct Shared {
    /// What its browsers are shown.
    pub slate: Arc<Slate, Global>,
    /// Which page its member shows.
    pub turning: Arc<Turning, Global>,
    /// What others need of the member.
    pub need: Arc<Need, Global>,
    /// What its wire lost and dropped, whether it was in the session before, and what tells that members are set differently or that nobody reaches it.
    pub tally: Arc<Tally, Global>,
}

/// Binds the board's address, and makes what its threads share. Fails with the system's error if it refuses to bind, or has no randomness for a token, and with
/// `OutOfMemory`.
pub fn prepare<R>(
    rt: &R,
    alloc: Global,
    place: Place,
    names: &Names,
    config: Config,
) -> io::Result<Prepared<R>>
where
    R: Net<Listener = TcpListener, Stream = TcpStream> + TokenSource + Wait + Copy + Drop,
    ensures sinks { IfOk result (λ p. vec_len p.sinks ≡ PAGES) }
    ensures served { IfOk result (λ p. IsServed place.http p.endpoint.face.guard) }
    ensures token { place.has_token ≡ true → IfOk result (λ p. IsTokenRoot (R.gives rt.now) p.endpoint.face.guard.root) }
    ensures bare { place.has_token ≡ false → IfOk result (λ p. p.endpoint.face.guard.root ≡ codes "/") }
{
    let listener = listen(rt, place.http)?;
    let endpoint = endpoint_of(rt, alloc, listener, place, names, config)?;
    let shared = share(alloc)?;
    let sinks = slate_sinks(rt, alloc, &shared.slate)?;
    Ok(Prepared {
        endpoint,
        shared,
        sinks,
    })
}

// Binds an address. A thread that waits for connections looks whether the run has ended.
fn listen<R>(rt: &R, http: SocketAddr) -> io::Result<TcpListener>
where
    R: Net<Listener = TcpListener, Stream = TcpStream>,
{
    let listener = TcpListener::bind(rt, http)?;
    listener.set_nonblocking(true)?;
    Ok(listener)
}

// What is served by a listener that was bound at a place.
#[tactic(auto, using(crate::proofs::Served::is_served))]
fn endpoint_of<S: TokenSource>(
    source: &S,
    alloc: Global,
    listener: TcpListener,
    asked: Place,
    names: &Names,
    config: Config,
) -> io::Result<Endpoint>
    ensures served { IfOk result (λ e. IsServed asked.http e.face.guard) }
    ensures token { asked.has_token ≡ true → IfOk result (λ e. IsTokenRoot (S.gives source.now) e.face.guard.root) }
    ensures bare { asked.has_token ≡ false → IfOk result (λ e. e.face.guard.root ≡ codes "/") }
{
    let port = listener.local_addr()?.port();
    let (face, address) = face_of(source, alloc, asked.with_port(port), names, config)?;
    Ok(Endpoint {
        listener,
        face,
        address,
    })
}

fn share(alloc: Global) -> Result<Shared, AllocError> {
    Ok(Shared {
        slate: Arc::new(alloc, Slate::new(alloc))?,
        turning: Arc::new(alloc, Turning::new(alloc)?)?,
        need: Arc::new(alloc, Need::new())?,
        tally: Arc::new(alloc, Tally::new(alloc)?)?,
    })
}

// What the server shows of its member and to whom, and where its page is.
fn face_of<S: TokenSource>(
    source: &S,
    alloc: Global,
    place: Place,
    names: &Names,
    config: Config,
) -> io::Result<(Face, String)>
    ensures token { place.has_token ≡ true → IfOk result (λ r. IsTokenRoot (S.gives source.now) r.0.guard.root) }
    ensures bare { place.has_token ≡ false → IfOk result (λ r. r.0.guard.root ≡ codes "/") }
    ensures hosts { IfOk result (λ r. r.0.guard.hosts ≡ hosts_of place.http) }
    ensures anywhere { IfOk result (λ r. IsTrue r.0.guard.is_anywhere ↔ IsAnywhere place.http) }
{
    let root = place.new_root(source, alloc)?;
    let http = place.http;
    let address = format!(in alloc; "http://{http}{root}")?;
    let guard = place.guard(alloc, root)?;
    let face = Face {
        me: config.me().number(),
        members: config.members(),
        session: config.session(),
        names: names.texts(alloc)?,
        guard,
    };
    Ok((face, address))
}
