//! A picture of an honest run.

ghost use Rattle.std.specs.Prelude.{◌≡◌, ◌⊎◌, IfErr};
ghost use Rattle.srm_verdicts.specs.AuditFaults.{IsUnsaid};
ghost use Rattle.srm_verdicts.specs.declared.no_script.NoScript.TheVariants.{TooManyEvents, Unread};

use crate::fault::AuditFault;
use srm_picture::write_svg;
use srm_played::play;
use srm_script::{Dialect, read_script_in};
use std::alloc::Global;

/// Plays a script, and returns its picture as SVG.
///
/// Fails with [`AuditFault::NoScript`] if it has more than 2,000 events or can't be read, and if out of memory.
pub fn draw_script(alloc: Global, text: &[u8]) -> Result<Vec<u8>, AuditFault>
    ensures { IfErr result (IsUnsaid (λ why. (why ≡ TooManyEvents) ⊎ (why ≡ Unread))) }
{
    let script = read_script_in(alloc, Dialect::Extended, text)?;
    let played = play(alloc, script)?;
    let picture = played.picture(alloc)?;
    let mut svg = Vec::new(alloc);
    // A vector refuses bytes only if out of memory.
    match write_svg(alloc, &mut svg, &played.subject(), &picture) {
        Ok(()) => Ok(svg),
        Err(_) => Err(AuditFault::Memory),
    }
}
