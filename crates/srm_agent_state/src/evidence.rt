//! Names that a datagram shows to exist.

ghost use Rattle.std.specs.Prelude.{◌≡◌, ◌≤◌, max, if◌then◌else◌};
ghost use Rattle.srm_names.specs.declared.limits.TheConstants.{DRAWOPS};
ghost use Rattle.srm_names.specs.Names.{same_stream};
ghost use Rattle.srm_store.specs.Held.{greatest_in};
ghost use Rattle.srm_store.specs.Stores.{HavePlaces};
ghost use Rattle.srm_agent_state.specs.Growth.{LearnsNames};

use srm_names::{Name, Stream};
use srm_store::Store;

/// Notes that names are known to exist. The caller has made room for them in the store. Takes no memory.
pub fn learn_all(store: &mut Store, names: &[Name])
    requires { HavePlaces names.now store.old }
    ensures { LearnsNames names.now store.old store.new }
{
    for name in names {
        store.learn(*name).unwrap();
    }
}

/// Returns the greatest number of a stream among names, 1 to 65,536, or 0 if none is of the stream. Takes no memory; looks at each name.
pub fn greatest_in(names: &[Name], stream: &Stream) -> u32
    ensures value { result ≡ greatest_in names.now stream.now }
    ensures last { result ≤ DRAWOPS }
{
    let mut most = 0;
    for name in names {
        most = most_with(most, *name, stream);
    }
    most
}

/// Returns the greater of a number and that of a name, if the name is of the stream.
fn most_with(most: u32, name: Name, stream: &Stream) -> u32
    requires { most ≤ DRAWOPS }
    ensures value { result ≡ max most (if same_stream stream.now name.stream then name.number else 0) }
    ensures last { result ≤ DRAWOPS }
{
    if *stream == name.stream() {
        most.max(name.number())
    } else {
        most
    }
}
