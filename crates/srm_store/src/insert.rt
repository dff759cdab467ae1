//! What an insert found.

ghost use Rattle.std.specs.Prelude.{◌≡◌};
ghost use Rattle.srm_store.specs.Held.{same_drawop};

use srm_names::Drawop;

/// What an insert found under the drawop's name.
#[derive(Clone, Copy, Debug, PartialEq, Eq)]
pub enum Insert {
    /// Nothing: the drawop is held now.
    Fresh,
    /// The same stamp and body.
    Known,
    /// Another stamp or body. It stays.
    Conflict,
}

/// Returns whether two drawops of a name have the same stamp and body.
pub fn same_drawop(drawop: &Drawop, other: &Drawop) -> bool
    ensures { result ≡ same_drawop drawop.now other.now }
{
    drawop.stamp == other.stamp && drawop.body == other.body
}
