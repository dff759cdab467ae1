//! What a session message says of other members, and of the drawops that exist.

ghost use Rattle.std.specs.Prelude.{◌≡◌, Some, option_map, length};
ghost use Rattle.srm_codec.specs.Spelling.{IsSpellable, names_in};
ghost use Rattle.srm_store.specs.Stores.{HavePlaces, IsReadyToSettle};
ghost use Rattle.srm_entries.specs.Distances.{echo_for};
ghost use Rattle.srm_entries.specs.Verdicts.{settling_of};
ghost use Rattle.srm_agent_state.specs.Growth.{HearsToo, LearnsToo, SettlesToo};

use crate::evidence::learn_all;
use srm_codec::Datagram;
use srm_distance::Distances;
use srm_names::{Echo, Member, Name};
use srm_store::Store;

/// Notes in the distances of member `me` a datagram that it heard at `now`, in microseconds: a session message with its echo, and of a
/// farewell that its sender left. Other datagrams change nothing. Takes no memory.
pub fn hear_session_message(distances: &mut Distances, me: Member, datagram: &Datagram, now: u64)
    requires { IsSpellable datagram.now }
    ensures { HearsToo me now datagram.now distances.old distances.new }
{
    if let Datagram::Session {
        sender,
        sent,
        farewell,
        echoes,
        ..
    } = datagram
    {
        distances.heard_session(*sender, *sent, echo_for(echoes.as_slice(), &me), now);
        if *farewell {
            distances.forget(*sender);
        }
    }
}

/// Returns the first echo for a member: the moment that it returns, and how long the other member had it.
fn echo_for(echoes: &[Echo], me: &Member) -> Option<(u64, u64)>
    ensures { result ≡ echo_for me.now echoes.now }
{
    let echo = echoes.iter().find(|echo| echo.member == *me)?;
    Some((echo.t1, echo.delay))
}

/// Notes that the names of a datagram are known to exist, and by a farewell how far its sender's streams go. The caller has made room for them in the store. Takes
/// no memory.
pub fn learn_datagram(store: &mut Store, datagram: &Datagram, names: &[Name])
    requires names { names.now ≡ names_in datagram.now }
    requires ready { HavePlaces names.now store.old }
    ensures { LearnsToo datagram.now store.old store.new }
{
    learn_all(store, names);
    settle(store, leaver(datagram), names);
}

/// Returns the sender of a farewell; of another datagram `None`.
fn leaver(datagram: &Datagram) -> Option<Member>
    ensures { settling_of (Some datagram.now) ≡ option_map (λ m. record { member = m; rows = names_in datagram.now }) result }
{
    match datagram {
        Datagram::Session {
            sender,
            farewell,
            ..
        } => { if *farewell { Some(*sender) } else { None } }
        _ => None,
    }
}

/// Notes that the streams of a member that left, if one did, go as far as these rows say.
fn settle(store: &mut Store, leaver: Option<Member>, rows: &[Name])
    requires { IsReadyToSettle (length rows.now) store.old }
    ensures { SettlesToo leaver rows.now store.old store.new }
{
    if let Some(member) = leaver {
        store.settle_final(member, rows).unwrap();
    }
}
