//! The pages of one member, each in its slot.

ghost use Rattle.std.specs.Prelude.{◌≡◌, ◌≤◌, [], ◌∷◌, not, false, slice_get, length, IfOk};
ghost use Rattle.srm_names.specs.Names.{first_page};
ghost use Rattle.srm_store.specs.PageTables.{IsPageTable, is_in, slot_of, with_page, with_pages_of, table_lacks_room, table_lacks_room_for};

use srm_names::{Name, PAGES, Page};
use std::alloc::{AllocError, Global};
use std::marker::Model;

/// Page slots: at most eight pages, each once. Contracts see the list.
#[derive(Drop)]
pub struct PageTable {
    /// It has room for all eight from the start, so that adding a page takes no memory.
    pages: Vec<Page>,
}

impl Model for PageTable {
    ghost use Rattle.std.specs.Prelude.{List};
    ghost use Rattle.srm_names.specs.declared.page.Page.{Page as APage};
    ghost use Rattle.srm_store.specs.PageTables.{IsRoomyPageTable};

    ghost Value = { List APage };

    ghost view = { λ t. t.pages.items };

    ghost invariant = { IsRoomyPageTable };
}

impl PageTable {
    /// Makes page slots with the first page alone. Fails only if out of memory.
    pub fn new(alloc: Global) -> Result<PageTable, AllocError>
        ensures { IfOk result (λ table. table ≡ first_page ∷ []) }
    {
        let mut pages = Vec::with_capacity(alloc, usize::from(PAGES))?;
        pages.push(Page::first())?;
        Ok(PageTable { pages })
    }

    /// Returns the pages, by page slot.
    pub fn as_slice(&self) -> &[Page]
        ensures value { result.now ≡ self.now }
        ensures table { IsPageTable result.now }
    {
        self.pages.as_slice()
    }

    /// Returns the page of a page slot, 0 to 7, or `None` if the slot is free. Any greater number is a free one.
    pub fn get(&self, slot: u8) -> Option<Page>
        ensures { result ≡ slice_get self.now slot }
    {
        self.pages.get(usize::from(slot)).copied()
    }

    /// Returns the page slot of a page, or the number of pages if it has none.
    pub fn slot_of(&self, page: &Page) -> usize
        ensures value { result ≡ slot_of self.now page.now }
        ensures last { result ≤ PAGES }
        ensures few { length self.now ≤ PAGES }
    {
        for (slot, named) in self.pages.iter().enumerate() {
            if named == page {
                return slot;
            }
        }
        self.pages.len()
    }

    /// Returns whether a page has a page slot, or one is free.
    pub fn has_room(&self, page: &Page) -> bool
        ensures { result ≡ not (table_lacks_room self.now page.now) }
    {
        self.slot_of(page) < usize::from(PAGES)
    }

    /// Gives a page the next page slot, unless it has one. The caller shows that one is free. Takes no memory.
    pub fn add(&mut self, page: Page)
        requires { table_lacks_room self.old page ≡ false }
        ensures { self.new ≡ with_page self.old page }
    {
        if !holds(&self.pages, &page) {
            self.pages.push(page).unwrap();
        }
    }

    /// Returns whether too few page slots are free for the pages of these names. Takes no memory.
    pub fn lacks_room_for(&self, names: &[Name]) -> bool
        ensures { result ≡ table_lacks_room_for self.now names.now }
    {
        let pages = self.as_slice();
        // Beside the table, so that it stays as it is and a page counts once.
        let mut added = [Page::first(); PAGES as usize];
        let mut count = 0;
        for name in names {
            let page = name.stream().page;
            if holds(pages, &page) | holds(&added[..count], &page) {
                continue;
            }
            if pages.len() + count == usize::from(PAGES) {
                return true;
            }
            added[count] = page;
            count += 1;
        }
        false
    }

    /// Gives each page of these names a page slot, in order. The caller shows that there are enough. Takes no memory.
    pub fn add_all(&mut self, names: &[Name])
        requires { table_lacks_room_for self.old names.now ≡ false }
        ensures { self.new ≡ with_pages_of self.old names.now }
    {
        for name in names {
            self.add(name.stream().page);
        }
    }
}

fn holds(pages: &[Page], page: &Page) -> bool
    ensures { result ≡ is_in pages.now page.now }
{
    pages.iter().any(|other| other == page)
}
