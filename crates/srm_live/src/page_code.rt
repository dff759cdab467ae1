//! Pages as numbers.

ghost use Rattle.std.specs.Prelude.{◌≡◌, MatchOption};
ghost use Rattle.srm_live.specs.PageCodes.{IsNoCode, code_of};

use srm_names::{MEMBERS, Member, PAGE_NUMBERS, Page};

/// Pages of one member, at most.
const NUMBERS: u64 = PAGE_NUMBERS as u64;

/// Returns a page as a number above 0.
pub fn code_of(page: Page) -> u64
    ensures { result ≡ code_of page }
{
    u64::from(page.creator.number()) * NUMBERS + u64::from(page.number) + 1
}

/// Returns the page that is this number; `None` if none is, as for 0.
#[tactic(auto, using(crate::proofs::Codes::no_code))]
pub fn page_of(code: u64) -> Option<Page>
    ensures { MatchOption result (IsNoCode code) (λ page. code_of page ≡ code) }
{
    if code == 0 {
        return None;
    }
    let creator = (code - 1) / NUMBERS;
    if creator >= u64::from(MEMBERS) {
        return None;
    }
    Some(Page {
        creator: Member::new(creator as u8)?,
        number: ((code - 1) % NUMBERS) as u16,
    })
}
