//! Waits of timers.

ghost use Rattle.std.specs.Prelude.{◌≡◌, ◌≤◌, ◌+◌, ◌-◌, ◌*◌, ◌%◌, ◌^◌};

use crate::limits::{GREATEST_EXPONENT, GREATEST_TIMER_SETTING, LONGEST_WAIT};
use crate::words::{Words, wait_between};
use srm_names::LONGEST_DISTANCE;

/// Chooses a wait with one random number: from `first` to `first + second` distances, doubled as often as the exponent says.
pub(crate) fn choose_wait<W: Words>(
    first: u8,
    second: u8,
    exponent: u8,
    distance: u64,
    words: &mut W,
) -> u64
    requires first { first ≤ GREATEST_TIMER_SETTING }
    requires second { second ≤ GREATEST_TIMER_SETTING }
    requires exponent { exponent ≤ GREATEST_EXPONENT }
    requires distance { distance ≤ LONGEST_DISTANCE }
    ensures value { let low = 2 ^ exponent * first * distance in let high = 2 ^ exponent * (first + second) * distance in
        result ≡ low + (W.next_word words.old).0 % (high - low + 1) }
    ensures words { words.new ≡ (W.next_word words.old).1 }
    ensures short { result ≤ LONGEST_WAIT }
{
    let low = doubled(exponent, first, distance);
    let high = doubled(exponent, first + second, distance);
    wait_between(low, high, words)
}

/// So many distances, doubled as often as the exponent says.
fn doubled(exponent: u8, distances: u8, distance: u64) -> u64
    requires exponent { exponent ≤ GREATEST_EXPONENT }
    requires distances { distances ≤ 2 * GREATEST_TIMER_SETTING }
    requires distance { distance ≤ LONGEST_DISTANCE }
    ensures value { result ≡ 2 ^ exponent * distances * distance }
    ensures short { result ≤ LONGEST_WAIT }
{
    power(exponent) * u64::from(distances) * distance
}

/// Two to a power.
fn power(exponent: u8) -> u64
    requires { exponent ≤ GREATEST_EXPONENT }
    ensures value { result ≡ 2 ^ exponent }
    ensures small { result ≤ 256 }
{
    match exponent {
        0 => 1,
        1 => 2,
        2 => 4,
        3 => 8,
        4 => 16,
        5 => 32,
        6 => 64,
        7 => 128,
        _ => 256,
    }
}
