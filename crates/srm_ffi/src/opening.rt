//! Making an agent and letting it go.

ghost use Rattle.std.specs.Prelude.{◌≡◌, ◌≤◌, ◌<◌, None};
ghost use Rattle.srm_names.specs.declared.limits.TheConstants.{LATEST_MOMENT};
ghost use Rattle.srm_entries.specs.Configs.{default_settings, IsConfig};
ghost use Rattle.srm_ffi.specs.declared.codes.TheConstants.{CONFIG, MOMENT};
ghost use Rattle.srm_ffi.specs.Shapes.{config_of, with_settings};
ghost use Rattle.srm_ffi.specs.Calls.{IsRefused, Opens};

use crate::codes::{CONFIG, DONE, FULL, MOMENT, of_fault};
use crate::shapes::RawConfig;
use srm_agent::{AgentFault, Config, Settings};
use srm_names::LATEST_MOMENT;
use srm_seat::{Handle, Seat};
use std::alloc::Global;

/// Writes the defaults of the settings that have one. The size, the session, the member and the roster stay.
#[unsafe(no_mangle)]
pub extern "C" fn srm_raw_defaults(config: &mut RawConfig)
    ensures { config.new ≡ with_settings default_settings config.old }
{
    let settings = Settings::default();
    config.rate = settings.rate;
    config.depth = settings.depth;
    config.c1 = settings.c1;
    config.c2 = settings.c2;
    config.d1 = settings.d1;
    config.d2 = settings.d2;
    config.least_distance = settings.least_distance;
}

/// Makes an agent in an empty handle, with these settings. It chooses its waits by the random numbers of the seed, which is any number.
///
/// Returns `DONE` or the first of these that holds: `MOMENT`; `CONFIG` if a setting is out of its range, or the member isn't in the roster;
/// `FULL` if the handle holds an agent; the number of out of memory. Doesn't read `config.size`.
#[unsafe(no_mangle)]
pub extern "C" fn srm_raw_open(
    alloc: Global,
    handle: &mut Handle,
    config: &RawConfig,
    seed: u64,
    now: u64,
) -> u32
    ensures late { LATEST_MOMENT < now → IsRefused MOMENT result handle.old.value handle.new.value }
    ensures settings { now ≤ LATEST_MOMENT → (IsConfig (config_of config.now) → ⊥) → IsRefused CONFIG result handle.old.value handle.new.value }
    ensures opens { now ≤ LATEST_MOMENT → IsConfig (config_of config.now) → Opens (config_of config.now) now seed result handle.old.value handle.new.value }
{
    if now > LATEST_MOMENT {
        return MOMENT;
    }
    let Some(config) = config.config() else {
        return CONFIG;
    };
    if let Some(seat) = handle.take(alloc) {
        handle.put(seat);
        return FULL;
    }
    open_empty(alloc, handle, config, seed, now)
}

/// Makes an agent in a handle that holds none. Fails only if out of memory.
fn open_empty(alloc: Global, handle: &mut Handle, config: Config, seed: u64, now: u64) -> u32
    requires moment { now ≤ LATEST_MOMENT }
    requires empty { handle.old.value ≡ None }
    ensures { Opens config now seed result handle.old.value handle.new.value }
{
    let Ok(seat) = Seat::new(alloc, config, seed, now) else {
        return of_fault(AgentFault::Memory);
    };
    match Box::new(alloc, seat) {
        Ok(seat) => {
            handle.put(seat);
            DONE
        }
        Err(_) => of_fault(AgentFault::Memory),
    }
}

/// Drops the agent, if the handle holds one. The handle is empty then.
#[unsafe(no_mangle)]
pub extern "C" fn srm_raw_close(alloc: Global, handle: &mut Handle)
    ensures { handle.new.value ≡ None }
{
    drop(handle.take(alloc));
}
