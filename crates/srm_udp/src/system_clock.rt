//! The system's monotonic clock.

ghost use Rattle.std.specs.Prelude.{◌≡◌, ◌≤◌, ◌-◌, ◌/◌, ◌^◌, min, None, IfOk, MatchOption};
ghost use Rattle.std.specs.Duration.{as_nanos};

use srm_wire::Clock;
use std::marker::Model;
use std::time::{Duration, Instant};
use std::{io, time};

/// The microseconds since this clock was first read, by the system's monotonic clock. So the first reading is 0. They never fall.
#[derive(Drop)]
pub struct SystemClock<R: time::Clock + Drop> {
    rt: R,
    start: Instant,
    last: Option<u64>,
}

impl<R: time::Clock + Drop> Model for SystemClock<R> {
    ghost use Rattle.srm_udp.specs.Clocks.{ClockView};

    ghost Value = { ClockView };

    ghost view = { λ c. record { last = c.last } };
}

impl<R: time::Clock + Drop> SystemClock<R> {
    /// Makes a clock that starts at 0 when it is first read. Fails with the system's error if it can't read its own.
    pub fn new(rt: R) -> io::Result<SystemClock<R>>
        ensures { IfOk result (λ clock. clock ≡ record { last = None }) }
    {
        let start = Instant::now(&rt)?;
        Ok(SystemClock {
            rt,
            start,
            last: None,
        })
    }

    // The microseconds since the clock started, or 0 if the system can't read its clock.
    fn elapsed(&self) -> u64 {
        match self.start.elapsed(&self.rt) {
            Ok(time) => micros_of(time),
            Err(_) => 0,
        }
    }

    // Starts the clock anew. If the system can't read its clock, it started when it was made.
    fn start(&mut self)
        ensures { self.new ≡ self.old }
    {
        if let Ok(start) = Instant::now(&self.rt) {
            self.start = start;
        }
    }

    // The next moment that the clock tells.
    fn next(&mut self) -> u64
        ensures tells { MatchOption self.old.last (result ≡ 0) (λ last. last ≤ result) }
        ensures same { self.new ≡ self.old }
    {
        match self.last {
            Some(last) => self.elapsed().max(last),
            None => {
                self.start();
                0
            }
        }
    }
}

impl<R: time::Clock + Drop> Clock for SystemClock<R> {
    ghost use Rattle.srm_udp.specs.Clocks.{NeverFalls};

    ghost reads = { NeverFalls };

    /// Returns 0 at first, and then the microseconds since, or the last moment again if the system can't read its clock.
    fn now(&mut self) -> u64 {
        let told = self.next();
        self.last = Some(told);
        told
    }
}

// Returns the microseconds of a duration, rounded down, and at most 2^64 - 1.
fn micros_of(time: Duration) -> u64
    ensures { result ≡ min (as_nanos time / 1_000) (2 ^ 64 - 1) }
{
    u64::try_from(time.as_micros()).unwrap_or(u64::MAX)
}
