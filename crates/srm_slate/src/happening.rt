//! What befell a member.

ghost use Rattle.std.specs.Prelude.{◌≡◌, IfOk};

use bytes::Bytes;
use srm_names::{Member, Name, Page};
use std::alloc::{AllocError, Global};

/// What befell a member.
#[derive(Debug, Drop)]
pub enum Happening {
    /// A drawop was found missing: its first request timer was set. One that the member first hears of in another member's request for it isn't told.
    Missed(Name),
    /// The member requested it.
    Asked(Name),
    /// A drawop that was shown as missing by name came, in a datagram of this member.
    Gained(Name, Member),
    /// A drawop that another misses was repaired.
    Repaired(Name),
    /// A stroke of this member on the page wasn't drawn: the page, the number of the agent's fault, 1 to 5 as `srm world` prints it (`refused WHY`), and the body.
    Refused(Page, u8, Bytes),
}

impl Happening {
    /// Returns an equal happening, over the same bytes. Fails only if out of memory.
    pub fn copy(&self) -> Result<Happening, AllocError>
        ensures { IfOk result (λ copy. copy ≡ self.now) }
    {
        match self {
            Happening::Missed(name) => Ok(Happening::Missed(*name)),
            Happening::Asked(name) => Ok(Happening::Asked(*name)),
            Happening::Gained(name, by) => Ok(Happening::Gained(*name, *by)),
            Happening::Repaired(name) => Ok(Happening::Repaired(*name)),
            Happening::Refused(page, cause, body) => {
                Ok(Happening::Refused(*page, *cause, body.clone()?))
            }
        }
    }
}

/// Returns equal ones of a list, in order. Fails only if out of memory.
pub fn copies(alloc: Global, all: &[Happening]) -> Result<Vec<Happening>, AllocError>
    ensures { IfOk result (λ copies. copies.items ≡ all.now) }
{
    let mut copies = Vec::new(alloc);
    for one in all {
        copies.push(one.copy()?)?;
    }
    Ok(copies)
}
