//! What becomes of the copies that a member sends.

ghost use Rattle.std.specs.Prelude.{◌≡◌, [], ◌∷◌, ◌++◌, IfOk, filter, if◌then◌else◌};
ghost use Rattle.srm_names.specs.Histories.{count_up};
ghost use Rattle.srm_wire.specs.Fates.{fate_of as fate_at, at_once as now_comes, is_behind as stands_behind, arrivals_at};

use std::alloc::{AllocError, Global};

/// What becomes of one copy that a member sends in a network in memory.
#[derive(Clone, Copy, Debug, PartialEq, Eq)]
pub enum Fate {
    /// It comes at once.
    Pass,
    /// It is lost.
    Drop,
    /// It comes twice at once.
    Twice,
    /// It comes behind so many of its sender's next copies, and is lost if fewer follow. Behind 0 copies it comes at once.
    Late(u32),
}

/// Returns the numbers of the copies that come when the copy of number `sent` is sent, in order. Costs a pass over the list of fates; fails
/// only if out of memory.
pub(crate) fn arrivals_at(
    alloc: Global,
    fates: &[Fate],
    sent: usize,
) -> Result<Vec<usize>, AllocError>
    ensures { IfOk result (λ numbers. numbers.items ≡ arrivals_at fates.now sent) }
{
    let numbers = at_once(alloc, fate_of(fates, sent), sent)?;
    with_late(fates, sent, numbers)
}

// Returns the fate of a copy. It passes if the list has no fate for it.
fn fate_of(fates: &[Fate], number: usize) -> Fate
    ensures { result ≡ fate_at fates.now number }
{
    fates.get(number).copied().unwrap_or(Fate::Pass)
}

// Returns how a copy comes when it is sent.
fn at_once(alloc: Global, fate: Fate, number: usize) -> Result<Vec<usize>, AllocError>
    ensures { IfOk result (λ numbers. numbers.items ≡ now_comes fate number) }
{
    let mut numbers = Vec::new(alloc);
    match fate {
        Fate::Pass | Fate::Late(0) => numbers.push(number)?,
        Fate::Twice => {
            numbers.push(number)?;
            numbers.push(number)?;
        }
        Fate::Drop | Fate::Late(_) => {}
    }
    Ok(numbers)
}

#[tactic(auto, using(crate::proofs::Fating::collects_none, crate::proofs::Fating::collects_more, crate::proofs::Fating::collects_all))]
// Adds the late copies that have now waited for enough others.
fn with_late(fates: &[Fate], sent: usize, numbers: Vec<usize>) -> Result<Vec<usize>, AllocError>
    ensures { IfOk result (λ all. all.items ≡ numbers.items ++ filter (λ number. stands_behind (fate_at fates.now number) number sent) (count_up 0 sent)) }
{
    let mut numbers = numbers;
    for number in 0..sent.min(fates.len()) {
        let comes = is_behind(fate_of(fates, number), number, sent);
        numbers = with_number(numbers, number, comes)?;
    }
    Ok(numbers)
}

// Adds a number, if its copy comes.
fn with_number(numbers: Vec<usize>, number: usize, comes: bool) -> Result<Vec<usize>, AllocError>
    ensures { IfOk result (λ all. all.items ≡ numbers.items ++ (if comes then number ∷ [] else [])) }
{
    let mut numbers = numbers;
    if comes {
        numbers.push(number)?;
    }
    Ok(numbers)
}

// Whether a late copy comes exactly behind the copy `last`.
fn is_behind(fate: Fate, number: usize, last: usize) -> bool
    ensures { result ≡ stands_behind fate number last }
{
    match fate {
        Fate::Late(by) => last.checked_sub(number) == Some(by as usize),
        _ => false,
    }
}
