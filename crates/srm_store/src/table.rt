//! The places of all streams.

ghost use Rattle.std.specs.Prelude.{◌≡◌, ◌≢◌, ◌≤◌, ◌<◌, ◌+◌, ◌*◌, ◌↔◌, OnOk, IsOk, IfOk, OnErr, IsErr, [], length, vec_capacity};
ghost use Rattle.srm_store.specs.Held.{insert_answer, names_after};
ghost use Rattle.srm_store.specs.StreamPlaces.{unheld_in_stream};
ghost use Rattle.srm_store.specs.declared.fault.StoreFault.TheVariants.{PageLimit, Memory};
ghost use Rattle.srm_store.specs.PageTables.{slot_of, table_lacks_room_for};
ghost use Rattle.srm_store.specs.Tables.{places_of_stream, drawop_in_table, IsNewTable, SameTable, TableGains, TableLearns, HasPlaceFor, StillHasPlaces};

use crate::fault::StoreFault;
use crate::insert::Insert;
use crate::page_table::PageTable;
use crate::stream_places::StreamPlaces;
use srm_names::{DRAWOPS, Drawop, MEMBERS, Member, Name, PAGES, Page, Stream};
use std::alloc::{AllocError, Global};
use std::marker::Model;

/// Streams in the table: one for each source in each slot, and one more for each source, which stays blank and answers for pages
/// without a slot.
const STREAMS: usize = (PAGES as usize + 1) * MEMBERS as usize;

/// The places of all streams, by page slot and source. Finding a stream looks through at most [`PAGES`] pages.
#[derive(Drop)]
pub struct Table {
    /// The pages by slot, in the order in which they were named.
    pages: PageTable,
    /// The streams, slot after slot. Those behind the last page are blank.
    streams: Vec<StreamPlaces>,
}

impl Model for Table {
    ghost use Rattle.srm_store.specs.Tables.{TableContent};

    ghost Value = { TableContent };

    ghost use Rattle.srm_store.specs.Inside.{table_of, TableIsRight};

    ghost view = { table_of };

    ghost invariant = { TableIsRight };
}

impl Table {
    /// Makes a table with the first page, where nothing is held or known.
    pub fn new(alloc: Global) -> Result<Table, AllocError>
        ensures { IfOk result IsNewTable }
    {
        let pages = PageTable::new(alloc)?;
        let mut streams = Vec::with_capacity(alloc, STREAMS)?;
        for _stream in 0..STREAMS {
            streams.push(StreamPlaces::new(alloc))?;
        }
        Ok(Table { pages, streams })
    }

    /// The slot of a page: the one after the last, where it has none.
    fn slot(&self, page: Page) -> usize
        ensures value { result ≡ slot_of self.now.pages page }
        ensures last { result ≤ PAGES }
        ensures few { length self.now.pages ≤ PAGES }
    {
        self.pages.slot_of(&page)
    }

    /// Returns the slot that a page has, or gets when it is named.
    pub fn slot_for(&self, page: Page) -> Result<usize, StoreFault>
        ensures value { IfOk result (λ slot. slot ≡ slot_of self.now.pages page) }
        ensures below { IfOk result (λ slot. slot < PAGES) }
        ensures full { OnErr result (result ≡ Err PageLimit) }
        ensures limit { IsErr result ↔ (slot_of self.now.pages page ≡ PAGES) }
        ensures few { length self.now.pages ≤ PAGES }
    {
        let slot = self.slot(page);
        if slot == PAGES as usize {
            return Err(StoreFault::PageLimit);
        }
        Ok(slot)
    }

    /// Returns the places of a stream. Those on a page without a slot are blank.
    pub fn places_of_stream(&self, stream: Stream) -> &StreamPlaces
        ensures value { result.now ≡ places_of_stream self.now stream }
        ensures source { stream.source < MEMBERS }
    {
        let slot = self.slot(stream.page);
        &self.streams[place(slot, stream.source)]
    }

    /// Returns the names of a stream after a number, so many of them, that aren't held, in an empty list.
    pub fn unheld(
        &self,
        list: Vec<Name>,
        stream: &Stream,
        after: u32,
        count: u32,
    ) -> Result<Vec<Name>, AllocError>
        requires empty { list.items ≡ [] }
        requires last { after + count ≤ DRAWOPS }
        ensures ok { IfOk result (λ names. names.items ≡ unheld_in_stream (places_of_stream self.now stream.now) (names_after stream.now after count)) }
        ensures again { count ≤ vec_capacity list → IsOk result }
    {
        self.places_of_stream(*stream)
            .add_unheld(list, stream, after, count)
    }

    /// Holds a drawop, unless one of its name is held.
    pub fn insert(&mut self, drawop: Drawop) -> Result<Insert, StoreFault>
        ensures answer { IfOk result (λ answer. answer ≡ insert_answer drawop (drawop_in_table self.old drawop.name)) }
        ensures ok { OnOk result (TableGains drawop self.old self.new) }
        ensures err { OnErr result (SameTable self.old self.new) }
        ensures still { StillHasPlaces self.old self.new }
        ensures limit { (result ≡ Err PageLimit) ↔ (slot_of self.old.pages drawop.name.stream.page ≡ PAGES) }
        ensures again { HasPlaceFor drawop.name self.old → result ≢ Err Memory }
        ensures source { drawop.name.stream.source < MEMBERS }
        ensures few { length self.old.pages ≤ PAGES }
    {
        let stream = drawop.name.stream();
        let slot = self.slot_for(stream.page)?;
        let answer = self.streams[place(slot, stream.source)].insert(drawop)?;
        self.pages.add(stream.page);
        Ok(answer)
    }

    /// Notes that a name is known to exist, and all lower ones of its stream.
    pub fn learn(&mut self, name: Name)
        requires { slot_of self.old.pages name.stream.page < PAGES }
        ensures learns { TableLearns name self.old self.new }
        ensures still { StillHasPlaces self.old self.new }
    {
        let stream = name.stream();
        let slot = self.slot(stream.page);
        self.streams[place(slot, stream.source)].know(name.number());
        self.pages.add(stream.page);
    }

    /// Returns whether too few slots are free for the pages of these names. Takes no memory.
    pub fn lacks_room_for(&self, names: &[Name]) -> bool
        ensures { result ≡ table_lacks_room_for self.now.pages names.now }
    {
        self.pages.lacks_room_for(names)
    }

    /// Makes a place for the drawop of a name, wherever its stream is or comes to be: a page without a slot may get any of
    /// those that are left.
    pub fn make_places(&mut self, name: Name) -> Result<(), AllocError>
        ensures same { SameTable self.old self.new }
        ensures still { StillHasPlaces self.old self.new }
        ensures ok { OnOk result (HasPlaceFor name self.new) }
    {
        let stream = name.stream();
        let first = self.slot(stream.page);
        let end = if first < self.pages.as_slice().len() {
            first + 1
        } else {
            PAGES as usize
        };
        let source = stream.source.index();
        let number = name.number();
        for slot in first..end {
            self.streams[slot * MEMBERS as usize + source].make_place(number)?;
        }
        Ok(())
    }
}

/// The index of a stream.
fn place(slot: usize, source: Member) -> usize
    requires { slot ≤ PAGES }
    ensures value { result ≡ slot * MEMBERS + source }
    ensures source { source < MEMBERS }
{
    slot * MEMBERS as usize + source.index()
}
