//! Settings by plain numbers.

use srm_agent::{Config, Settings};
use srm_names::Member;

/// The settings that most members have, in session 7.
pub fn config(me: u8, members: u8) -> Option<Config> {
    config_with(me, members, Settings::default())
}

/// The same with so many bytes a second and a bucket of so many.
pub fn config_at(me: u8, members: u8, rate: u32, depth: u32) -> Option<Config> {
    let usual = Settings::default();
    config_with(
        me,
        members,
        Settings {
            rate,
            depth,
            ..usual
        },
    )
}

fn config_with(me: u8, members: u8, settings: Settings) -> Option<Config> {
    Config::with(Member::new(me)?, members, 7, settings)
}
