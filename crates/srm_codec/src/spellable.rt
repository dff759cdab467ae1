//! Which datagrams have a spelling.

ghost use Rattle.std.specs.Prelude.{◌≡◌, ◌<◌, ◌↔◌, IsTrue, All, true};
ghost use Rattle.std.specs.List.{AllByRecursion};
ghost use Rattle.srm_names.specs.declared.limits.TheConstants.{MEMBERS};
ghost use Rattle.srm_names.specs.Names.{ascending, echo_below};
ghost use Rattle.srm_codec.specs.Spelling.{IsSpellable, asked_by, AreRows, AreEchoes, is_page, is_name, is_drawop, is_echo, row_below};

use crate::datagram::Datagram;
use crate::format::LONGEST_LIST;
use crate::mask::is_within;
use srm_names::{DRAWOPS, Drawop, Echo, LATEST_MOMENT, LONGEST_BODY, MEMBERS, Member, Name, Page};

/// Returns whether the datagram has a spelling, so that it can be encoded. Takes no memory.
///
/// The types keep members and numbers in range. This checks the rest: moments, a body's length, a mask, and of rows and echoes their
/// count, their members and their order.
pub fn encodable(datagram: &Datagram) -> bool
    ensures { IsTrue result ↔ IsSpellable datagram.now }
{
    match datagram {
        Datagram::Data(drawop) => is_drawop(drawop),
        Datagram::Request { sender, name, mask } => {
            is_member(*sender) && are_asked(*name, *mask)
        }
        Datagram::Repair { sender, drawop } => is_member(*sender) && is_drawop(drawop),
        Datagram::Session {
            sender,
            sent,
            farewell,
            shown,
            rows,
            echoes,
        } => {
            is_member(*sender)
                && *sent <= LATEST_MOMENT
                && is_page(*shown)
                && are_rows(*farewell, *sender, rows.as_slice())
                && are_echoes(echoes.as_slice())
        }
    }
}

fn is_member(member: Member) -> bool
    ensures { IsTrue result ↔ (member < MEMBERS) }
{
    member.number() < MEMBERS
}

fn is_page(page: Page) -> bool
    ensures { IsTrue result ↔ is_page page }
{
    is_member(page.creator)
}

fn is_name(name: Name) -> bool
    ensures { IsTrue result ↔ is_name name }
{
    let stream = name.stream();
    is_member(stream.source)
        && is_page(stream.page)
        && 1 <= name.number()
        && name.number() <= DRAWOPS
}

/// Whether all names that a request asks for are in range.
fn are_asked(name: Name, mask: u32) -> bool
    ensures { IsTrue result ↔ AllByRecursion is_name (asked_by name mask) }
{
    is_name(name) && is_within(name, mask)
}

fn is_drawop(drawop: &Drawop) -> bool
    ensures { IsTrue result ↔ is_drawop drawop.now }
{
    is_name(drawop.name)
        && drawop.stamp <= LATEST_MOMENT
        && drawop.body.len() <= usize::from(LONGEST_BODY)
}

fn is_echo(echo: Echo) -> bool
    ensures { IsTrue result ↔ is_echo echo }
{
    is_member(echo.member) && echo.t1 <= LATEST_MOMENT && echo.delay <= LATEST_MOMENT
}

fn are_rows(farewell: bool, sender: Member, rows: &[Name]) -> bool
    ensures { IsTrue result ↔ AreRows farewell sender rows.now }
{
    rows.len() <= usize::from(LONGEST_LIST)
        && are_names(rows)
        && are_from(farewell, sender, rows)
        && rows_rise(rows)
}

fn are_names(rows: &[Name]) -> bool
    ensures { IsTrue result ↔ All is_name rows.now }
{
    rows.iter().all(|row| is_name(*row))
}

fn are_from(farewell: bool, sender: Member, rows: &[Name]) -> bool
    ensures { IsTrue result ↔ All (λ row. farewell ≡ true → row.stream.source ≡ sender) rows.now }
{
    rows.iter().all(|row| !farewell || row.source() == sender)
}

fn rows_rise(rows: &[Name]) -> bool
    ensures { result ≡ ascending row_below rows.now }
{
    rows.is_sorted_by(|a, b| a.stream() < b.stream())
}

fn are_echoes(echoes: &[Echo]) -> bool
    ensures { IsTrue result ↔ AreEchoes echoes.now }
{
    echoes.len() <= usize::from(LONGEST_LIST) && are_each_echoes(echoes) && echoes_rise(echoes)
}

fn are_each_echoes(echoes: &[Echo]) -> bool
    ensures { IsTrue result ↔ All is_echo echoes.now }
{
    echoes.iter().all(|echo| is_echo(*echo))
}

fn echoes_rise(echoes: &[Echo]) -> bool
    ensures { result ≡ ascending echo_below echoes.now }
{
    echoes.is_sorted_by(|a, b| a.member < b.member)
}
