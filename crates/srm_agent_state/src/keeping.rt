//! Holding a drawop that the store has room for.

ghost use Rattle.std.specs.Prelude.{[], ◌∷◌};
ghost use Rattle.srm_store.specs.Stores.{HavePlaces};
ghost use Rattle.srm_agent_state.specs.Growth.{HoldsToo};

use srm_names::Drawop;
use srm_store::Store;

/// Holds a drawop, unless one of its name is held, and notes that its name is known to exist. The caller has made room for it in the store. Takes no memory.
pub fn keep(store: &mut Store, drawop: Drawop)
    requires { HavePlaces (drawop.name ∷ []) store.old }
    ensures { HoldsToo drawop store.old store.new }
{
    let name = drawop.name;
    store.insert(drawop).unwrap();
    store.learn(name).unwrap();
}
