//! Pages, for the user.

ghost use Rattle.std.specs.Prelude.{Some};
ghost use Rattle.srm_script.specs.TookLines.{page_text};

use srm_names::Page;
use std::fmt;

/// A page, as the number of its creator, a dot and its own number.
#[derive(Clone, Copy, Debug, PartialEq, Eq)]
pub struct ShownPage(pub Page);

impl fmt::Display for ShownPage {
    ghost output = { λ page. Some (page_text page.0) };

    fn fmt<W: fmt::Write>(&self, f: &mut fmt::Formatter<W>) -> fmt::Result {
        let creator = self.0.creator.number();
        let number = self.0.number;
        write!(f, "{creator}.{number}")
    }
}
