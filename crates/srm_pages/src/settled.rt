//! The comparison of a lane's two ends.
ghost use Rattle.std.specs.Prelude.{◌≡◌, ◌++◌, List};
ghost use Rattle.srm_names.specs.declared.page_msg.PageMsg.{PageMsg};

use crate::feed::Feed;
use crate::lane::{LanePass, LaneSplit, Total};
use crate::tap::Tap;
use std::marker::Model;

/// What was put into a lane, and what was taken. Contracts see the two lists; they take no bytes.
#[derive(Drop)]
pub struct Settled {
    pass: LanePass,
}

impl Model for Settled {
    ghost use Rattle.srm_pages.specs.Ends.{SettledView};

    ghost Value = { SettledView };

    ghost use Rattle.crossbeam_channel.specs.Claims.{view as knows};

    ghost view = { λ s. record { put = (knows s.pass).put; taken = (knows s.pass).taken } };
}

/// Compares the two ends of one lane: what was taken is a prefix of what was put. Takes no memory.
pub fn settle(feed: Feed, tap: Tap) -> Settled
    requires { feed.lane ≡ tap.lane }
    ensures put { result.put ≡ feed.put }
    ensures taken { result.taken ≡ tap.taken }
    ensures prefix { (held : List PageMsg) × (result.put ≡ result.taken ++ held) }
{
    let Feed {
        sender,
        mut pass,
        lookout: _,
        slot: _,
        count: _,
        disconnected: _,
    } = feed;
    let Tap {
        receiver: _,
        pass: theirs,
        marker: _,
        count: _,
        closed: _,
    } = tap;
    sender.absorb::<LaneSplit>(&mut pass, theirs);
    sender.learn_as::<Total>(&mut pass);
    Settled { pass }
}
