//! What a live member does where its command line says nothing else.

ghost use Rattle.std.specs.Prelude.{◌≡◌};
ghost use Rattle.srm_options.specs.Options.{live_settings};

use srm_entries::Settings;

/// Without `--least-distance` a live member takes a distance as at least so many microseconds. Where members are a few microseconds apart, one that misses
/// much would else ask each millisecond, and its own strokes would wait behind its requests.
const LEAST_DISTANCE: u64 = 5_000;

/// Without `--rate` a live member sends so many bytes a second. A hand that draws makes one to three thousand, and what one who joins late asks for, and gets, goes at this rate too.
const RATE: u32 = 64_000;

/// Without `--linger` a live member leaves once others needed nothing of it for so many microseconds: who is 5 ms away, and has asked eight times, asks again within 5.2 seconds.
pub const LIVE_LINGER: u64 = 6_000_000;

/// Returns what a live member may send and how long it waits.
pub fn live_settings() -> Settings
    ensures { result ≡ live_settings }
{
    Settings {
        rate: RATE,
        least_distance: LEAST_DISTANCE,
        ..Settings::default()
    }
}
