//! What a live member tells of the others, and of itself, once each.

ghost use Rattle.std.specs.Prelude.{◌≡◌, option_map};
ghost use Rattle.srm_live.specs.News as spec;

use crate::presence::{Presence, Standing};
use crate::signs::Signs;
use crate::tally::Tally;
use crate::teller::Teller;
use srm_names::{MEMBERS, Member};
use srm_wire::Dropped;
use std::sync::Wait;

/// What was told so far.
#[derive(Clone, Copy, Debug, PartialEq, Eq)]
pub struct Told {
    presence: Presence,
    was_before: bool,
    signs: Signs,
    dropped: Dropped,
}

impl Told {
    /// Returns that nothing was told yet.
    pub fn nothing() -> Told {
        Told {
            presence: Presence::none(),
            was_before: false,
            signs: Signs::none(),
            dropped: Dropped::none(),
        }
    }
}

/// Tells what changed since: who of the others is here, fell silent or left, that the member with this number was in the session before, what tells that members are set differently or that
/// nobody reaches this one, and why the first datagram was dropped. If out of memory, a line is left out.
pub fn tell_news<R: Wait, T: Teller>(rt: &R, tally: &Tally, told: Told, teller: &T) -> Told {
    let now = Told {
        presence: tally.presence(),
        was_before: tally.was_before(),
        signs: tally.signs(),
        dropped: tally.dropped(),
    };
    if now == told {
        return now;
    }
    for number in 0..MEMBERS {
        if let Some(member) = Member::new(number) {
            let standing = now.presence.standing(member);
            if let Some(news) = news_of(told.presence.standing(member), standing) {
                tell(rt, teller, member, news);
            }
        }
    }
    if now.was_before && !told.was_before {
        let has_names = !teller.names().is_empty();
        tell(rt, teller, teller.me(), was_before(has_names));
    }
    tell_signs(rt, teller, told.signs, now.signs);
    tell_first_dropped(rt, teller, told.dropped, now.dropped);
    now
}

// Tells what was seen first of members that are set differently, and that nobody was heard.
fn tell_signs<R: Wait, T: Teller>(rt: &R, teller: &T, told: Signs, now: Signs) {
    for (before, now, line) in [
        (
            told.other_session,
            now.other_session,
            "srm: ignored a datagram of another session: give all members the same --session or room\n",
        ),
        (
            told.too_long,
            now.too_long,
            "srm: ignored a datagram that is too long, as one with a key's tag is: give all members the same --key or room\n",
        ),
        (
            told.unheard,
            now.unheard,
            "srm: nobody was heard for 10 s: are the others running, with the same list, and do firewalls let UDP through?\n",
        ),
    ] {
        if now && !before {
            teller.tell(rt, line);
        }
    }
}

// Tells why datagrams are dropped as the first is, where the member's options may be wrong.
fn tell_first_dropped<R: Wait, T: Teller>(rt: &R, teller: &T, told: Dropped, now: Dropped) {
    for (before, now, line) in [
        (
            told.untagged.saturating_sub(told.older),
            now.untagged.saturating_sub(now.older),
            "srm: dropped a datagram without the right tag: do all members have this key?\n",
        ),
        (
            told.older,
            now.older,
            "srm: dropped a datagram from an older version: start that member with this one\n",
        ),
        (
            told.again,
            now.again,
            "srm: dropped a datagram that was sent again: was a member's clock set back?\n",
        ),
        (
            told.misnamed,
            now.misnamed,
            "srm: dropped a datagram that is not from its sender's address: --any-origin takes such\n",
        ),
        (
            told.strangers,
            now.strangers,
            "srm: dropped a datagram from outside the roster: --any-origin takes such\n",
        ),
    ] {
        if before == 0 && now > 0 {
            teller.tell(rt, line);
        }
    }
}

// Returns what to tell a member that was in the session before.
fn was_before(has_names: bool) -> &'static str {
    if has_names {
        "was in this session before: join by another name, or make a new room"
    } else {
        "was in this session before: use another number or another session"
    }
}

fn tell<R: Wait, T: Teller>(rt: &R, teller: &T, member: Member, news: &str) {
    let member = teller.names().titled(member);
    if let Ok(line) = format!(in teller.alloc(); "srm: {member} {news}\n") {
        teller.tell(rt, line.as_str());
    }
}

// Returns what to tell of a member whose standing changed.
fn news_of(before: Standing, now: Standing) -> Option<&'static str>
    ensures { option_map (λ text. text.now) result ≡ spec.news_of before now }
{
    match (before, now) {
        (Standing::Unheard, Standing::Here) => Some("is here"),
        (Standing::Silent, Standing::Here) => Some("is here again"),
        (Standing::Unheard | Standing::Here, Standing::Silent) => Some("was silent for 10 s"),
        (Standing::Unheard | Standing::Here | Standing::Silent, Standing::Left) => Some("left"),
        _ => None,
    }
}
