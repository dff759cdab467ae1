//! What who types may tell a live member to do.

ghost use Rattle.std.specs.Prelude.{◌≡◌, true, bytes_eq};
ghost use Rattle.srm_live.specs.Commands as spec;
ghost use Rattle.srm_live.specs.Commands.{command_of};

use srm_names::{MEMBERS, Member, PAGE_NUMBERS, Page};

/// What who types may tell a live member to do.
#[derive(Clone, Copy, Debug, PartialEq, Eq)]
pub enum Command {
    /// Show a page, and draw there.
    Show(Page),
    /// Begin a page, and draw there.
    Begin,
    /// Tell which pages have strokes.
    Pages,
    /// Tell who is here, and what is missing of whom.
    Who,
    /// Leave, as at the end of input.
    Leave,
    /// Tell which commands there are.
    Help,
}

/// So many bytes come before the page that a command names.
const BEFORE_PAGE: usize = 5;

/// Returns the command of this name, which stands behind a slash, with the page that it names if it names one. `None` if there is no such command, or no such page.
pub fn command_in(name: &[u8]) -> Option<Command>
    ensures { result ≡ command_of name.now }
{
    if is(name, "new") {
        Some(Command::Begin)
    } else if is(name, "pages") {
        Some(Command::Pages)
    } else if is(name, "who") {
        Some(Command::Who)
    } else if is(name, "leave") {
        Some(Command::Leave)
    } else if is(name, "help") {
        Some(Command::Help)
    } else {
        shown_in(name)
    }
}

// The command that shows a page, if it is one.
#[tactic(auto, using(crate::proofs::PageNames::short_name))]
fn shown_in(name: &[u8]) -> Option<Command>
    ensures { result ≡ spec.shown_in name.now }
{
    if name.len() < BEFORE_PAGE {
        return None;
    }
    let (word, page) = name.split_at(BEFORE_PAGE);
    if !is(word, "page ") {
        return None;
    }
    Some(Command::Show(page_in(page)?))
}

// Whether a name is this one.
fn is(name: &[u8], wanted: &str) -> bool
    ensures { result ≡ bytes_eq name.now wanted.now }
{
    name == wanted.as_bytes()
}

// The page that a text says: the number of its creator, a dot, and its own number. None where it says none, or one that there can't be.
fn page_in(text: &[u8]) -> Option<Page>
    ensures { result ≡ spec.page_in text.now }
{
    match text {
        [] => None,
        [first, ..] => {
            if *first == b'.' {
                None
            } else {
                page_behind(0, text)
            }
        }
    }
}

// The same, behind digits that say this of its creator.
fn page_behind(creator: u32, text: &[u8]) -> Option<Page>
    ensures { result ≡ spec.page_behind creator text.now }
{
    match text {
        [] => None,
        [first, rest @ ..] => {
            if *first == b'.' {
                page_with(creator, rest)
            } else if goes_on(creator, *first) {
                page_behind(grown(creator, *first), rest)
            } else {
                None
            }
        }
    }
}

// The page of this creator whose own number this text says.
#[tactic(auto, using(crate::proofs::PageNames::page_with_some))]
fn page_with(creator: u32, text: &[u8]) -> Option<Page>
    ensures { result ≡ spec.page_with creator text.now }
{
    match text {
        [] => None,
        [_, ..] => page_of(creator, number_behind(0, text)?),
    }
}

// The page with this creator and this number, if there can be such a one.
#[tactic(auto, using(crate::proofs::PageNames::no_member, crate::proofs::PageNames::no_number, crate::proofs::PageNames::page_is))]
fn page_of(creator: u32, number: u32) -> Option<Page>
    ensures { result ≡ spec.page_of creator number }
{
    if creator >= u32::from(MEMBERS) {
        return None;
    }
    if number >= PAGE_NUMBERS {
        return None;
    }
    Some(Page {
        creator: Member::new(creator as u8)?,
        number: number as u16,
    })
}

// The number that digits say, behind those that say this.
fn number_behind(so_far: u32, text: &[u8]) -> Option<u32>
    ensures { result ≡ spec.number_behind so_far text.now }
{
    match text {
        [] => Some(so_far),
        [first, rest @ ..] => {
            if goes_on(so_far, *first) {
                number_behind(grown(so_far, *first), rest)
            } else {
                None
            }
        }
    }
}

// Whether a digit goes on with a number, which with it has five digits at most.
fn goes_on(so_far: u32, digit: u8) -> bool
    ensures { result ≡ spec.goes_on so_far digit }
{
    b'0' <= digit && digit <= b'9' && so_far < 10_000
}

// A number with such a digit more.
#[tactic(auto, using(crate::proofs::PageNames::goes_on_tells))]
fn grown(so_far: u32, digit: u8) -> u32
    requires { spec.goes_on so_far digit ≡ true }
    ensures { result ≡ spec.grown so_far digit }
{
    so_far * 10 + u32::from(digit - b'0')
}
