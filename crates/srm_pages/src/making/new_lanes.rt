//! How the lanes and the board are made.

ghost use Rattle.std.specs.Prelude.{◌≡◌, ◌+◌, ◌<◌, ◌≤◌, true, [], vec_len, IfOk, OnOk, All};
ghost use Rattle.crossbeam_channel.specs.Claims.{view as knows, IsSeatAt};
ghost use Rattle.crossbeam_channel.specs.Ends.{sends_on, receives_on, ruled_capacity};
ghost use Rattle.srm_names.specs.declared.limits.TheConstants.{LANE_MESSAGES, PAGES, VIEWERS};
ghost use Rattle.srm_pages.specs.Board.{zeros};
ghost use Rattle.srm_pages.specs.Ends.{AreLanes, AreNewEnds, AreNewLanes};
ghost use Rattle.srm_pages.specs.Lane.{lane_view};
ghost use Rattle.srm_pages.specs.Seats.{new_lookout};

use crate::dealer::Dealer;
use crate::ends;
use crate::feed::Feed;
use crate::lane::{LanePass, LaneSplit, Receiver, Sender};
use crate::lookout::Lookout;
use crate::marker::Marker;
use crate::tap::Tap;
use crate::viewer::Viewer;
use crossbeam_channel::bounded_with;
use srm_names::{LANE_MESSAGES, PAGES};
use std::alloc::{AllocError, Global};

/// Makes the board, a lane for each of the eight page slots, and `viewers` viewers, at most 8. Fails only if out of memory.
pub fn lanes(alloc: Global, viewers: u8) -> Result<ends::Lanes, AllocError>
    requires { viewers ≤ VIEWERS }
    ensures { IfOk result (λ l. AreLanes viewers l.feeds.items l.taps.items l.viewers.items) }
{
    let mut dealer = Dealer::new(alloc)?;
    let viewers = all_viewers(alloc, &mut dealer, viewers)?;
    let (feeds, taps) = all_lanes(alloc, dealer)?;
    Ok(ends::Lanes {
        feeds,
        taps,
        viewers,
    })
}

// Makes `count` viewers.
fn all_viewers(alloc: Global, dealer: &mut Dealer, count: u8) -> Result<Vec<Viewer>, AllocError>
    ensures dealer { OnOk result (dealer.new ≡ dealer.old) }
    ensures viewers { IfOk result (λ v. (vec_len v ≡ count) × All (λ s. s ≡ new_lookout dealer.old.board) v.items) }
{
    let mut viewers = Vec::new(alloc);
    for _ in 0..count {
        viewers.push(Viewer {
            lookout: dealer.lookout()?,
        })?;
    }
    Ok(viewers)
}

// Makes the ends of all lanes. The dealer's seat becomes the last feed's.
fn all_lanes(alloc: Global, mut dealer: Dealer) -> Result<(Vec<Feed>, Vec<Tap>), AllocError>
    requires { dealer.next ≡ 0 }
    ensures { IfOk result (λ e. (vec_len e.0 ≡ PAGES) × (vec_len e.1 ≡ PAGES) × AreNewLanes dealer.board e.0.items e.1.items) }
{
    let mut feeds = Vec::new(alloc);
    let mut taps = Vec::new(alloc);
    for slot in 0..PAGES - 1 {
        let marker = dealer.marker(slot)?;
        let lookout = dealer.lookout()?;
        add_lane(alloc, marker, lookout, &mut feeds, &mut taps)?;
    }
    let marker = dealer.marker(PAGES - 1)?;
    add_lane(alloc, marker, dealer.into_lookout(), &mut feeds, &mut taps)?;
    Ok((feeds, taps))
}

// Adds the ends of the lane of the marker's slot behind the others.
#[tactic(auto, using(crate::proofs::Dealing::lanes_more))]
fn add_lane(
    alloc: Global,
    marker: Marker,
    lookout: Lookout,
    feeds: &mut Vec<Feed>,
    taps: &mut Vec<Tap>,
) -> Result<(), AllocError>
    requires new { (marker.seat ≡ zeros) × (lookout ≡ new_lookout marker.board) }
    requires before { (vec_len feeds.old ≡ marker.slot) × (vec_len taps.old ≡ marker.slot) × AreNewLanes marker.board feeds.old.items taps.old.items }
    ensures { OnOk result ((vec_len feeds.new ≡ marker.slot + 1) × (vec_len taps.new ≡ marker.slot + 1) × AreNewLanes marker.board feeds.new.items taps.new.items) }
{
    let (feed, tap) = lane(alloc, marker, lookout)?;
    feeds.push(feed)?;
    taps.push(tap)?;
    Ok(())
}

// Makes the ends of the lane of the marker's slot.
fn lane(alloc: Global, marker: Marker, lookout: Lookout) -> Result<(Feed, Tap), AllocError>
    requires { (marker.seat ≡ zeros) × (lookout ≡ new_lookout marker.board) }
    ensures { IfOk result (λ e. AreNewEnds marker.board marker.slot e.0 e.1) }
{
    let (sender, receiver, mut pass) = channel(alloc)?;
    let last = sender.another::<LaneSplit>(&mut pass);
    let feed = Feed {
        sender,
        pass,
        lookout,
        slot: marker.slot(),
        count: 0,
        disconnected: false,
    };
    let tap = Tap {
        receiver,
        pass: last,
        marker,
        count: 0,
        closed: false,
    };
    Ok((feed, tap))
}

// Makes the channel of a lane, and its first pass.
#[tactic(auto, using(crate::proofs::LaneSteps::begins))]
fn channel(alloc: Global) -> Result<(Sender, Receiver, LanePass), AllocError>
    ensures { IfOk result (λ r. (receives_on r.1 ≡ sends_on r.0) × (ruled_capacity (sends_on r.0) ≡ LANE_MESSAGES) × IsSeatAt (sends_on r.0) r.2 × (knows r.2 ≡ lane_view true true [] [])) }
{
    bounded_with(alloc, LANE_MESSAGES as usize)
}
