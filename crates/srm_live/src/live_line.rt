//! The lines that a live member prints of what its page workers take.

ghost use Rattle.std.specs.Prelude.{◌≡◌, string_bytes, IfOk};
ghost use Rattle.srm_live.specs.LiveLines as spec;

use crate::readable::readable;
use crate::shown_page::ShownPage;
use srm_names::{Member, PageMsg};
use srm_options::Names;
use std::alloc::{AllocError, Global};

/// Returns the line, with its end, that says that the worker of a page slot took a message. Members have their names, if they have any. A body is shown as [`readable`] returns it, and
/// all else as by a member that isn't live.
///
/// Fails only if out of memory.
pub fn live_line(
    alloc: Global,
    names: &Names,
    me: Member,
    slot: u8,
    message: &PageMsg,
) -> Result<String, AllocError>
    ensures { IfOk result (λ line. string_bytes line ≡ spec.live_line names.now me slot message.now) }
{
    let me = names.called(me);
    match message {
        PageMsg::Open(page) => {
            let page = ShownPage(*page);
            format!(in alloc; "took {me} {slot} open {page}\n")
        }
        PageMsg::Draw(drawop) => {
            let source = names.called(drawop.name.source());
            let number = drawop.name.number();
            let body = readable(alloc, &drawop.body)?;
            format!(in alloc; "took {me} {slot} draw {source} {number} {body}\n")
        }
        PageMsg::Left(member) => {
            let member = names.called(*member);
            format!(in alloc; "took {me} {slot} left {member}\n")
        }
        PageMsg::Close => format!(in alloc; "took {me} {slot} close\n"),
    }
}
