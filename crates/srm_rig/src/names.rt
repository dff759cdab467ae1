//! Pages and names by plain numbers.

ghost use Rattle.std.specs.Prelude.{◌≡◌, IfSome};
ghost use Rattle.srm_names.specs.Names.{named};

use srm_names::{Member, Name, Page};

/// A page of a member.
pub fn page(creator: u8, number: u16) -> Option<Page> {
    let creator = Member::new(creator)?;
    Some(Page { creator, number })
}

/// The name with this number of a source, on a page of member 0.
pub fn name(source: u8, page: u16, number: u32) -> Option<Name>
    ensures { IfSome result (λ name. name ≡ named (record { source = source; page = record { creator = 0; number = page } }) number) }
{
    let creator = Member::new(0)?;
    let page = Page {
        creator,
        number: page,
    };
    Name::new(Member::new(source)?, page, number)
}
