//! What holds of every run of several members while a network connects some of them.

ghost use Rattle.srm_recovery.specs.Delivering.{DeliveringLaw};
ghost use Rattle.srm_recovery.specs.Emptying.{EmptyingLaw};
ghost use Rattle.srm_recovery.specs.Hearing.{AcceptingLaw, HearingLaw};
ghost use Rattle.srm_recovery.specs.Leaving.{KeepingLaw, LeavingLaw, SilenceLaw};
ghost use Rattle.srm_recovery.specs.Lengths.{LengthLaw};
ghost use Rattle.srm_recovery.specs.Recovery.{ReadingLaw, RecoveryLaw, SharingLaw};
ghost use Rattle.srm_recovery.specs.Reporting.{ReportingLaw};
ghost use Rattle.srm_recovery.specs.Waits.{WaitsLaw};

/// States the law of recovery: how soon a loss is repaired. Does nothing. A member that knows of a stroke which another one held when the network
/// began to connect the two, holds it a repair time later, if the network has settled.
///
/// The network connects an asker to a holder, as to one name, from one time to another:
///
/// - both stay, tick at least every `tick`, and at least every `emptying` a tick leaves their bucket empty;
/// - requests for the name that the asker sends, the holder accepts within `delay`; repairs of it that the holder sends, the asker accepts within `delay`;
/// - what silences the asker comes to the holder too: a request that the asker accepts, the holder accepts within `delay` of that, sooner or later, or sent itself at most `delay`
///   before. Likewise a repair that the holder accepts comes to the asker;
/// - no repair timer of the holder's for the name waits longer than `repair_wait`, no hold-off of its ever lasts longer than `hold_off` ([`waits`]), and no request timer for the name
///   that the asker has set so far waits longer than `request_wait`.
///
/// It has settled after the longest of `hold_off` + 2 `delay` and `emptying` + `delay`. A repair then takes `request_wait` + `repair_wait` + 2 (`tick` + `emptying` + `delay`). All
/// times are microseconds of one clock; a member's own may have begun at any time, and runs as fast.
///
/// Data and session messages may all be lost. The law says nothing where the network goes on to lose requests or repairs, and nothing of members that it doesn't connect.
pub fn recovers()
    ensures { RecoveryLaw }
{}

/// States the law of sharing: how soon another member holds what a member holds. Does nothing. What a member held when the network began to connect another one to it, and to carry its session messages, the other one holds a
/// sharing time later.
///
/// The premises are those of [`recovers`], and that the holder shows the page of the name all the time, that its next session message is due within `interval`, and that the asker
/// accepts each of its session messages within `delay`. Here `request_wait` bounds each request timer for the name that the asker sets up to the end, also one that it sets again. A
/// sharing time is the longer of the settling time and `interval` + `tick` + `delay`, and a repair time after that.
///
/// Nothing is said of pages that the holder doesn't show, nor of a holder that turns its pages.
pub fn shares()
    ensures { SharingLaw }
{}

/// States the law of reading: how soon another member has released what a source drew. Does nothing. What a source had drawn on a page when it began to serve the page to a member, that member has released a sharing time later: its page
/// worker can get it.
///
/// It serves the page while the premises of [`shares`] hold for each of its names there. The run is honest: members accepted only what a member had sent.
pub fn reads()
    ensures { ReadingLaw }
{}

/// States the law of keeping: what others hold is released, though its source has left. Does nothing. Let a member know how many strokes a source drew on a page, and let each of them be held by the member itself, or by some member that
/// the network connects it to, each perhaps by another one. Then the member releases all of them a repair time later.
///
/// Nothing is asked of the source, which has drawn its last there: it may have left. The run is honest, and the network has settled, as in [`recovers`].
pub fn keeps()
    ensures { KeepingLaw }
{}

/// States the law of leaving: how long a source has to stay. Does nothing. A source that has drawn its last on a page, and serves the page to one other member for a sharing time, takes nothing away when it
/// leaves: whom that member then serves it to releases all of it a sharing time later.
///
/// To serve is as in [`reads`], and the run is honest. The source can't see that it has served the page: it has to stay so long, or to hear no request for so long ([`assures`]).
pub fn leaves()
    ensures { LeavingLaw }
{}

/// States the law of silence: how long nobody has to ask until nobody needs a name. Does nothing. If a holder hears no request for a name for a while, each member that knew of the name before and that the network connects to the
/// holder holds it.
///
/// The while begins `delay` before a time, and ends `request_wait` + `tick` + `emptying` + `delay` after it; `emptying` + `delay` before that time the network began to connect the
/// two, and the holder held the name. What a member doesn't know of yet it doesn't ask for: silence says nothing of that.
pub fn assures()
    ensures { SilenceLaw }
{}

/// States the law of hearing: to hear is enough. Does nothing. In an honest run it is enough, for [`recovers`] and [`shares`], that members hear what they have to accept, and have page slots for it.
///
/// Only datagrams of others count. A member's own ones that come back to it are ignored.
pub fn hears()
    ensures { HearingLaw }
{}

/// States the law of accepting: what another member sent is accepted. Does nothing. In an honest run a member that hears a datagram that another one sent before, and has page slots for it, accepts it. It has page slots
/// unless the datagram names a ninth page.
pub fn accepts()
    ensures { AcceptingLaw }
{}

/// States the law of delivering: a network that delivers among some members connects them. Does nothing. Let a network deliver among some members: what one of them sends each other one accepts within `delay`, and what one of them accepts
/// one of them sent at most `delay` before. If they all keep up, it connects each two of them for every name, as [`recovers`] asks, and carries their session messages.
///
/// All others may be cut off, at any time and from anybody; what only they hold, these members may never get. A datagram that comes late, or is sent again to some of them, breaks the
/// premise.
pub fn connects()
    ensures { DeliveringLaw }
{}

/// States the law of emptying: how soon a bucket is empty. Does nothing. While a member ticks at least every `tick` microseconds, a tick within `emptying` microseconds leaves its bucket empty, if its rate
/// pays in that time less a `tick` for what waits and for what it hands in by then.
///
/// What the rate pays for in a `tick` has to fit the bucket beside the longest datagram (see [`fits`]), since a full bucket gains nothing: 80 bytes in 10 ms at 8,000 bytes a second.
/// A member that has more to send than its rate pays for never empties its bucket.
pub fn empties()
    ensures { EmptyingLaw }
{}

/// States the law of lengths: how long a datagram is at most. Does nothing. No datagram that a member hands to its bucket is longer than one with the longest body, of 1,051 bytes.
pub fn fits()
    ensures { LengthLaw }
{}

/// States the law of reporting: how soon a session message is due. Does nothing. At any time the session message that a member owes next is due by its longest interval later: a second, or as long as its rate takes
/// for 20 of its longest session messages for each member of the roster, if that is longer.
///
/// It is due then: the next tick sends it.
pub fn reports()
    ensures { ReportingLaw }
{}

/// States the law of waits: how long timers wait, and hold-offs last. Does nothing. Where no member ever takes another one to be at a greater distance, a request timer waits at most 256 (`c1` + `c2`) such distances, a
/// repair timer at most `d1` + `d2`, and a hold-off lasts at most three.
///
/// That is the longest of all waits. A request timer with the exponent *e* waits at most 2^*e* (`c1` + `c2`) distances. A member takes another one to be 100 ms away before it heard an
/// echo of it: so the greatest distance is no less, and the bound on hold-offs is 300 ms or more.
pub fn waits()
    ensures { WaitsLaw }
{}
