//! The tokens of a bucket: how much may go at a moment.

ghost use Rattle.std.specs.Prelude.{◌≡◌, ◌≤◌, ◌*◌, if◌then◌else◌, nat_le};

use crate::limits::{
    GREATEST_DEPTH, GREATEST_LENGTH, GREATEST_RATE, LEAST_DEPTH, LEAST_RATE, MILLIONTHS,
};
use srm_names::LATEST_MOMENT;

/// Tokens in millionths of a byte, as of the last moment, in microseconds.
#[derive(Clone, Copy, Debug)]
pub(crate) struct Tokens {
    /// Bytes a second, which is millionths of a byte a microsecond.
    rate: u32,
    /// Bytes, at most.
    depth: u32,
    level: u64,
    last: u64,
}

impl Tokens {
    ghost use Rattle.srm_bucket.specs.Tokens.{AreInRange, IsFirstLevel, IsFirstMoment, cost_of, refilled, spent};

    /// All tokens, at moment 0.
    pub(crate) fn full(rate: u32, depth: u32) -> Tokens
        requires least_rate { LEAST_RATE ≤ rate }
        requires greatest_rate { rate ≤ GREATEST_RATE }
        requires least_depth { LEAST_DEPTH ≤ depth }
        requires greatest_depth { depth ≤ GREATEST_DEPTH }
        ensures value { result ≡ record { rate = rate; depth = depth; level = cost_of depth; last = 0 } }
        ensures range { AreInRange result }
    {
        Tokens {
            rate,
            depth,
            level: cost(depth),
            last: 0,
        }
    }

    /// The time since the last moment brings tokens, up to the depth.
    pub(crate) fn refill(&mut self, now: u64)
        requires moment { now ≤ LATEST_MOMENT }
        requires range { AreInRange self.old }
        ensures value { self.new ≡ refilled now self.old }
        ensures range { AreInRange self.new }
    {
        if now <= self.last {
            return;
        }
        self.level = self.level_at(now);
        self.last = now;
    }

    /// The level at a moment.
    pub(crate) fn level_at(&self, now: u64) -> u64
        requires range { AreInRange self.now }
        ensures value { result ≡ (refilled now self.now).level }
    {
        let gained = u128::from(self.rate) * u128::from(now.saturating_sub(self.last));
        let level = (u128::from(self.level) + gained).min(u128::from(self.full_level()));
        level as u64
    }

    /// The level of a full bucket.
    pub(crate) fn full_level(&self) -> u64
        requires range { AreInRange self.now }
        ensures value { result ≡ cost_of self.now.depth }
    {
        cost(self.depth)
    }

    /// The last moment.
    pub(crate) fn last(&self) -> u64
        ensures { result ≡ self.now.last }
    {
        self.last
    }

    /// Takes what an item of a length costs, where there is so much.
    pub(crate) fn spend(&mut self, length: u32) -> bool
        requires range { AreInRange self.old }
        requires length { length ≤ GREATEST_LENGTH }
        ensures value { result ≡ nat_le (cost_of length) self.old.level }
        ensures spends { self.new ≡ (if result then spent length self.old else self.old) }
        ensures range { AreInRange self.new }
    {
        let price = cost(length);
        if price > self.level {
            return false;
        }
        self.level -= price;
        true
    }

    /// The first moment, from the last one on, at which an item of a length can go.
    pub(crate) fn first_moment(&self, length: u32) -> u64
        requires range { AreInRange self.now }
        requires length { length ≤ GREATEST_LENGTH }
        ensures { IsFirstMoment self.now length result }
    {
        self.moment_of(cost(length))
    }

    /// The first moment, from the last one on, at which the level is so high. A full bucket's is.
    pub(crate) fn moment_of(&self, level: u64) -> u64
        requires range { AreInRange self.now }
        requires level { level ≤ cost_of self.now.depth }
        ensures { IsFirstLevel self.now level result }
    {
        let missing = level.saturating_sub(self.level);
        self.last + missing.div_ceil(u64::from(self.rate))
    }
}

/// What so many bytes cost, in millionths of a byte.
pub(crate) fn cost(bytes: u32) -> u64
    ensures { result ≡ bytes * MILLIONTHS }
{
    u64::from(bytes) * MILLIONTHS
}
