//! What is fixed for a session.

ghost use Rattle.std.specs.Prelude.{◌≡◌, ◌≤◌, ◌↔◌, IfSome, IsSome};
ghost use Rattle.srm_names.specs.declared.limits.TheConstants.{MEMBERS, LONGEST_DISTANCE};
ghost use Rattle.srm_distance.specs.declared.limits.TheConstants.{SHORTEST_DISTANCE};
ghost use Rattle.srm_bucket.specs.declared.limits.TheConstants.{LEAST_RATE, GREATEST_RATE, LEAST_DEPTH, GREATEST_DEPTH};
ghost use Rattle.srm_timers.specs.declared.limits.TheConstants.{GREATEST_TIMER_SETTING};
ghost use Rattle.srm_entries.specs.Configs.{IsConfig, config_with};

use crate::settings::Settings;
use srm_distance::SHORTEST_DISTANCE;
use srm_names::{LONGEST_DISTANCE, MEMBERS, Member};
use std::marker::Model;

/// The settings of one member, fixed for the session. Contracts see them as a record.
#[derive(Clone, Copy, Debug, PartialEq, Eq)]
pub struct Config {
    me: Member,
    members: u8,
    session: u32,
    rate: u32,
    depth: u32,
    c1: u8,
    c2: u8,
    d1: u8,
    d2: u8,
    least_distance: u64,
}

impl Model for Config {
    ghost use Rattle.srm_entries.specs.Configs.{Config as AConfig, IsConfig};

    ghost Value = { AConfig };

    ghost view = { λ c. record { me = c.me; members = c.members; session = c.session; rate = c.rate; depth = c.depth; c1 = c.c1; c2 = c.c2; d1 = c.d1; d2 = c.d2; least_distance = c.least_distance } };

    ghost invariant = { λ c. IsConfig (record { me = c.me; members = c.members; session = c.session; rate = c.rate; depth = c.depth; c1 = c.c1; c2 = c.c2; d1 = c.d1; d2 = c.d2; least_distance = c.least_distance }) };

    ghost inverse = { λ c. record { me = c.me; members = c.members; session = c.session; rate = c.rate; depth = c.depth; c1 = c.c1; c2 = c.c2; d1 = c.d1; d2 = c.d2; least_distance = c.least_distance } };
}

impl Config {
    /// Makes the settings of member `me` in a roster of `members`, 1 to 32, numbered from 0. `session` is the session's number, `rate`
    /// what it may send in bytes a second, 1 to 100,000,000, `depth` that of its bucket in bytes, 1,051 to 1,000,000. A request waits
    /// from `c1` to `c1 + c2` distances, a repair from `d1` to `d1 + d2`, each setting 0 to 16. [`Config::with`] takes a floor under
    /// distances too.
    ///
    /// Returns `None` if a setting is out of its range, or `me` isn't in the roster.
    pub fn new(
        me: Member,
        members: u8,
        session: u32,
        rate: u32,
        depth: u32,
        c1: u8,
        c2: u8,
        d1: u8,
        d2: u8,
    ) -> Option<Config>
        ensures known { IsSome result ↔ IsConfig (record { me = me; members = members; session = session; rate = rate; depth = depth; c1 = c1; c2 = c2; d1 = d1; d2 = d2; least_distance = SHORTEST_DISTANCE }) }
        ensures value { IfSome result (λ config. config ≡ record { me = me; members = members; session = session; rate = rate; depth = depth; c1 = c1; c2 = c2; d1 = d1; d2 = d2; least_distance = SHORTEST_DISTANCE }) }
    {
        let settings = Settings {
            rate,
            depth,
            c1,
            c2,
            d1,
            d2,
            least_distance: SHORTEST_DISTANCE,
        };
        Config::with(me, members, session, settings)
    }

    /// Makes the settings of member `me` in a roster of `members`, 1 to 32, numbered from 0, in the session with this number. Most
    /// members take [`Settings::default`] for the rest.
    ///
    /// Returns `None` if a setting is out of its range, or `me` isn't in the roster.
    pub fn with(me: Member, members: u8, session: u32, settings: Settings) -> Option<Config>
        ensures known { IsSome result ↔ IsConfig (config_with me members session settings) }
        ensures value { IfSome result (λ config. config ≡ config_with me members session settings) }
    {
        if me.number() < members && members <= MEMBERS && settings.are_in_range() {
            Some(Config {
                me,
                members,
                session,
                rate: settings.rate,
                depth: settings.depth,
                c1: settings.c1,
                c2: settings.c2,
                d1: settings.d1,
                d2: settings.d2,
                least_distance: settings.least_distance,
            })
        } else {
            None
        }
    }

    /// Returns the member that these settings are for.
    pub fn me(&self) -> Member
        ensures { result ≡ self.now.me }
    {
        self.me
    }

    /// Returns how many members the roster has, 1 to 32.
    pub fn members(&self) -> u8
        ensures value { result ≡ self.now.members }
        ensures limit { result ≤ MEMBERS }
    {
        self.members
    }

    /// Returns the number of the session.
    pub fn session(&self) -> u32
        ensures { result ≡ self.now.session }
    {
        self.session
    }

    /// Returns the rate in bytes a second, 1 to 100,000,000.
    pub fn rate(&self) -> u32
        ensures value { result ≡ self.now.rate }
        ensures least { LEAST_RATE ≤ result }
        ensures greatest { result ≤ GREATEST_RATE }
    {
        self.rate
    }

    /// Returns the depth of the bucket in bytes, 1,051 to 1,000,000.
    pub fn depth(&self) -> u32
        ensures value { result ≡ self.now.depth }
        ensures least { LEAST_DEPTH ≤ result }
        ensures greatest { result ≤ GREATEST_DEPTH }
    {
        self.depth
    }

    /// Returns how many distances a request waits at least, 0 to 16.
    pub fn c1(&self) -> u8
        ensures value { result ≡ self.now.c1 }
        ensures range { result ≤ GREATEST_TIMER_SETTING }
    {
        self.c1
    }

    /// Returns how many distances more a request waits at most.
    pub fn c2(&self) -> u8
        ensures value { result ≡ self.now.c2 }
        ensures range { result ≤ GREATEST_TIMER_SETTING }
    {
        self.c2
    }

    /// Returns how many distances a repair waits at least.
    pub fn d1(&self) -> u8
        ensures value { result ≡ self.now.d1 }
        ensures range { result ≤ GREATEST_TIMER_SETTING }
    {
        self.d1
    }

    /// Returns how many distances more a repair waits at most.
    pub fn d2(&self) -> u8
        ensures value { result ≡ self.now.d2 }
        ensures range { result ≤ GREATEST_TIMER_SETTING }
    {
        self.d2
    }

    /// Returns the floor under distances to others in microseconds, 1 to 10,000,000.
    pub fn least_distance(&self) -> u64
        ensures value { result ≡ self.now.least_distance }
        ensures shortest { SHORTEST_DISTANCE ≤ result }
        ensures longest { result ≤ LONGEST_DISTANCE }
    {
        self.least_distance
    }
}
