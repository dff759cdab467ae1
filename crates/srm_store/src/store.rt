//! What a member holds and knows.

ghost use Rattle.std.specs.Prelude.{◌≡◌, ◌≢◌, ◌≤◌, ◌↔◌, true, List, [], ◌∷◌, ◌++◌, length, map, option_map, IfOk, OnOk, OnErr, IfSome, IsOk};
ghost use Rattle.std.specs.Option.{option_copied};
ghost use Rattle.srm_names.specs.declared.drawop.Drawop.{Drawop as ADrawop};
ghost use Rattle.srm_names.specs.declared.page.Page.{Page as APage};
ghost use Rattle.srm_names.specs.FullName.{FullName};
ghost use Rattle.srm_names.specs.Names.{among, named};
ghost use Rattle.srm_store.specs.declared.fault.StoreFault.TheVariants.{PageLimit, Memory};
ghost use Rattle.srm_store.specs.Held.{held_at, is_held, known, missing, newly_missing, next_missing, released, insert_answer, lacks_room, outgrow, page_of_name};
ghost use Rattle.srm_store.specs.Finals.{Settling, final};
ghost use Rattle.srm_store.specs.Stores.{HasSlots, KeepsSlots, IsReady, IsReadyToSettle, AreReady, HavePlaces, StaysReady, KeepsRoom};
ghost use Rattle.srm_store.specs.PageTables.{is_in};
ghost use Rattle.srm_store.specs.Tables.{HasPlaceFor, StillHasPlaces};
ghost use Rattle.srm_store.specs.Fits.{StoreFits, StoreStays};

use crate::fault::StoreFault;
use crate::finals::Finals;
use crate::insert::Insert;
use crate::rooms::Rooms;
use crate::table::Table;
use srm_names::{DRAWOPS, Drawop, Member, Name, Stream};
use std::alloc::{AllocError, Global};
use std::marker::Model;

/// What a member holds and knows: the first drawop inserted under each name, the greatest number of each stream with evidence, and
/// how far the streams of members that left go.
///
/// It has streams on at most eight pages: the first page from the start, each further one once it is named.
#[derive(Drop)]
pub struct Store {
    alloc: Global,
    table: Table,
    rooms: Rooms,
    finals: Finals,
}

impl Model for Store {
    ghost use Rattle.srm_store.specs.Stores.{StoreContent};

    ghost Value = { StoreContent };

    ghost use Rattle.srm_store.specs.Inside.{store_of};

    ghost view = { store_of };
}

impl Store {
    /// Makes an empty store. Fails only if out of memory.
    pub fn new(alloc: Global) -> Result<Store, AllocError>
        ensures { IfOk result (StoreFits [] [] []) }
    {
        Ok(Store {
            alloc,
            table: Table::new(alloc)?,
            rooms: Rooms::new(alloc),
            finals: Finals::new(alloc)?,
        })
    }

    /// Makes room: afterwards one insert and one evidence of each of these names, and one settling with all of them, succeed in any
    /// order. It replaces the room of the call before. Nothing that is held or known changes.
    ///
    /// # Errors
    ///
    /// [`StoreFault::PageLimit`] if the pages of the names don't all find slots: nothing has changed. [`StoreFault::Memory`]: the room
    /// of the call before is still there.
    pub fn room(&mut self, names: &[Name]) -> Result<(), StoreFault>
        ensures kept { StoreStays self.old self.new }
        ensures before { StoreStays self.new self.old }
        ensures ready { OnOk result (AreReady names.now self.new) }
        ensures limit { (inserted : List ADrawop) (evidence : List FullName) (settled : List Settling) → StoreFits inserted evidence settled self.old
            → ((result ≡ Err PageLimit) ↔ (outgrow inserted evidence (map page_of_name names.now) ≡ true)) }
        ensures same { result ≡ Err PageLimit → self.new ≡ self.old }
        ensures earlier { OnErr result (KeepsRoom self.old self.new) }
    {
        self.find_slots(names)?;
        self.make_room(names)?;
        Ok(())
    }

    /// Makes room: afterwards one insert and one [`learn`](Store::learn) of each of these names, and one settling with all of them,
    /// succeed in any order. It makes less than [`room`](Store::room), since learning returns no list. Nothing that is held or known
    /// changes, and earlier room stays.
    ///
    /// # Errors
    ///
    /// [`StoreFault::PageLimit`] if the pages of the names don't all find page slots: nothing has changed. [`StoreFault::Memory`] if out of memory: earlier room
    /// stays.
    pub fn room_to_learn(&mut self, names: &[Name]) -> Result<(), StoreFault>
        ensures kept { StoreStays self.old self.new }
        ensures before { StoreStays self.new self.old }
        ensures ready { OnOk result (HavePlaces names.now self.new) }
        ensures limit { (inserted : List ADrawop) (evidence : List FullName) (settled : List Settling) → StoreFits inserted evidence settled self.old
            → ((result ≡ Err PageLimit) ↔ (outgrow inserted evidence (map page_of_name names.now) ≡ true)) }
        ensures same { result ≡ Err PageLimit → self.new ≡ self.old }
        ensures earlier { KeepsRoom self.old self.new }
    {
        self.find_slots(names)?;
        self.make_places(names)?;
        Ok(())
    }

    /// [`StoreFault::PageLimit`] unless the pages of the names all find slots. Takes no memory.
    fn find_slots(&self, names: &[Name]) -> Result<(), StoreFault>
        ensures slots { OnOk result (HasSlots (map page_of_name names.now) self.now) }
        ensures limit { (inserted : List ADrawop) (evidence : List FullName) (settled : List Settling) → StoreFits inserted evidence settled self.now
            → ((result ≡ Err PageLimit) ↔ (outgrow inserted evidence (map page_of_name names.now) ≡ true)) }
    {
        if self.table.lacks_room_for(names) {
            return Err(StoreFault::PageLimit);
        }
        Ok(())
    }

    /// Makes room for one insert and one learn of each of the names, and one settling with all of them.
    fn make_places(&mut self, names: &[Name]) -> Result<(), AllocError>
        ensures kept { StoreStays self.old self.new }
        ensures before { StoreStays self.new self.old }
        ensures ready { OnOk result ((n : FullName) → among names.now n ≡ true → HasPlaceFor n self.new.table) }
        ensures settling { OnOk result (IsReadyToSettle (length names.now) self.new) }
        ensures pages { self.new.table.pages ≡ self.old.table.pages }
        ensures earlier { KeepsRoom self.old self.new }
    {
        let count = names.len();
        self.finals.room(count)?;
        for name in names {
            self.make_place(*name)?;
        }
        Ok(())
    }

    /// Makes room for one insert and one learn of a name.
    fn make_place(&mut self, name: Name) -> Result<(), AllocError>
        ensures kept { StoreStays self.old self.new }
        ensures before { StoreStays self.new self.old }
        ensures ok { OnOk result (HasPlaceFor name self.new.table) }
        ensures still { StillHasPlaces self.old.table self.new.table }
        ensures earlier { StaysReady self.old self.new }
        ensures settling { self.new.finals ≡ self.old.finals }
        ensures pages { self.new.table.pages ≡ self.old.table.pages }
    {
        self.table.make_places(name)
    }

    /// Makes room for one insert and one evidence of each of the names, and one settling with all of them. The room of the call before
    /// goes only once all is there.
    fn make_room(&mut self, names: &[Name]) -> Result<(), AllocError>
        ensures kept { StoreStays self.old self.new }
        ensures before { StoreStays self.new self.old }
        ensures ready { OnOk result ((n : FullName) → among names.now n ≡ true → IsReady n self.new) }
        ensures settling { OnOk result (IsReadyToSettle (length names.now) self.new) }
        ensures pages { self.new.table.pages ≡ self.old.table.pages }
        ensures earlier { OnErr result (KeepsRoom self.old self.new) }
    {
        self.finals.room(names.len())?;
        let mut rooms = Rooms::new(self.alloc);
        for name in names {
            self.room_for(*name, &mut rooms)?;
        }
        self.rooms = rooms;
        Ok(())
    }

    /// Makes room for one insert and one evidence of a name, with the room for its answer among these.
    fn room_for(&mut self, name: Name, rooms: &mut Rooms) -> Result<(), AllocError>
        ensures kept { StoreStays self.old self.new }
        ensures before { StoreStays self.new self.old }
        ensures ok { OnOk result (IsReady name (record self.new { rooms = rooms.new })) }
        ensures ready { StaysReady (record self.old { rooms = rooms.old }) (record self.new { rooms = rooms.new }) }
        ensures earlier { StaysReady self.old self.new }
        ensures settling { self.new.finals ≡ self.old.finals }
        ensures pages { self.new.table.pages ≡ self.old.table.pages }
    {
        self.table.make_places(name)?;
        let known = self.table.places_of_stream(name.stream()).known();
        rooms.make(name, name.number().saturating_sub(known) as usize)
    }

    /// Holds a drawop, unless one of its name is held, and returns what it found. What is known to exist doesn't change.
    ///
    /// # Errors
    ///
    /// [`StoreFault::PageLimit`] if its page would be the ninth; [`StoreFault::Memory`]. Nothing has changed then.
    pub fn insert(&mut self, drawop: Drawop) -> Result<Insert, StoreFault>
        ensures fits { OnOk result ((inserted : List ADrawop) (evidence : List FullName) (settled : List Settling) → StoreFits inserted evidence settled self.old
            → StoreFits (inserted ++ drawop ∷ []) evidence settled self.new) }
        ensures answer { IfOk result (λ answer. (inserted : List ADrawop) (evidence : List FullName) (settled : List Settling) → StoreFits inserted evidence settled self.old
            → answer ≡ insert_answer drawop (held_at inserted drawop.name)) }
        ensures err { OnErr result (StoreStays self.old self.new) }
        ensures limit { (inserted : List ADrawop) (evidence : List FullName) (settled : List Settling) → StoreFits inserted evidence settled self.old
            → ((result ≡ Err PageLimit) ↔ (lacks_room inserted evidence drawop.name.stream.page ≡ true)) }
        ensures room { IsReady drawop.name self.old → result ≢ Err Memory }
        ensures place { HasPlaceFor drawop.name self.old.table → result ≢ Err Memory }
        ensures slot { (pages : List APage) → is_in pages drawop.name.stream.page ≡ true → HasSlots pages self.old → result ≢ Err PageLimit }
        ensures slots { KeepsSlots drawop.name.stream.page self.old self.new }
        ensures ready { StaysReady self.old self.new }
        ensures places { StillHasPlaces self.old.table self.new.table }
        ensures settling { self.new.finals ≡ self.old.finals }
    {
        self.table.insert(drawop)
    }

    /// Notes that a name exists, and all lower numbers of its stream, and returns the names that are newly missing, in order. What is
    /// held doesn't change. Costs a step for each number that is newly known.
    ///
    /// # Errors
    ///
    /// [`StoreFault::PageLimit`] if its page would be the ninth; [`StoreFault::Memory`]. Nothing has changed then.
    pub fn evidence(&mut self, name: Name) -> Result<Vec<Name>, StoreFault>
        ensures fits { OnOk result ((inserted : List ADrawop) (evidence : List FullName) (settled : List Settling) → StoreFits inserted evidence settled self.old
            → StoreFits inserted (evidence ++ name ∷ []) settled self.new) }
        ensures answer { IfOk result (λ names. (inserted : List ADrawop) (evidence : List FullName) (settled : List Settling) → StoreFits inserted evidence settled self.old
            → names.items ≡ newly_missing inserted evidence name) }
        ensures err { OnErr result (StoreStays self.old self.new) }
        ensures limit { (inserted : List ADrawop) (evidence : List FullName) (settled : List Settling) → StoreFits inserted evidence settled self.old
            → ((result ≡ Err PageLimit) ↔ (lacks_room inserted evidence name.stream.page ≡ true)) }
        ensures room { IsReady name self.old → result ≢ Err Memory }
        ensures slot { (pages : List APage) → is_in pages name.stream.page ≡ true → HasSlots pages self.old → result ≢ Err PageLimit }
        ensures slots { KeepsSlots name.stream.page self.old self.new }
        ensures ready { StaysReady self.old self.new }
        ensures settling { self.new.finals ≡ self.old.finals }
    {
        let stream = name.stream();
        self.table.slot_for(stream.page)?;
        let known = self.table.places_of_stream(stream).known();
        let count = name.number().saturating_sub(known);
        let mut list = self.rooms.take(name, count as usize);
        list.reserve(count as usize)?;
        let names = self.table.unheld(list, &stream, known, count)?;
        self.table.learn(name);
        Ok(names)
    }

    /// Notes that a name exists, and all lower numbers of its stream, as [`evidence`](Store::evidence) does, and returns no names. Takes
    /// no memory, and a step for each number that is newly known.
    ///
    /// # Errors
    ///
    /// Only [`StoreFault::PageLimit`], if its page would be the ninth.
    pub fn learn(&mut self, name: Name) -> Result<(), StoreFault>
        ensures fits { OnOk result ((inserted : List ADrawop) (evidence : List FullName) (settled : List Settling) → StoreFits inserted evidence settled self.old
            → StoreFits inserted (evidence ++ name ∷ []) settled self.new) }
        ensures err { OnErr result (self.new ≡ self.old) }
        ensures limit { (inserted : List ADrawop) (evidence : List FullName) (settled : List Settling) → StoreFits inserted evidence settled self.old
            → ((result ≡ Err PageLimit) ↔ (lacks_room inserted evidence name.stream.page ≡ true)) }
        ensures memory { result ≢ Err Memory }
        ensures slot { (pages : List APage) → is_in pages name.stream.page ≡ true → HasSlots pages self.old → result ≢ Err PageLimit }
        ensures slots { KeepsSlots name.stream.page self.old self.new }
        ensures ready { StaysReady self.old self.new }
        ensures places { StillHasPlaces self.old.table self.new.table }
        ensures settling { self.new.finals ≡ self.old.finals }
    {
        self.table.slot_for(name.stream().page)?;
        self.table.learn(name);
        Ok(())
    }

    /// Returns the missing names of a stream, in order: those that are known to exist and aren't held. Costs a step for each number that
    /// is known. Fails only if out of memory.
    pub fn missing(&self, stream: Stream) -> Result<Vec<Name>, StoreFault>
        ensures value { IfOk result (λ names. (inserted : List ADrawop) (evidence : List FullName) (settled : List Settling) → StoreFits inserted evidence settled self.now
            → names.items ≡ missing inserted evidence stream) }
        ensures err { OnErr result (result ≡ Err Memory) }
    {
        let known = self.table.places_of_stream(stream).known();
        let names = self.table.unheld(Vec::new(self.alloc), &stream, 0, known)?;
        Ok(names)
    }

    /// Returns how many names of a stream are missing: known to exist and not held. Takes no memory, and as many steps for any number.
    pub fn missing_count(&self, stream: Stream) -> u32
        ensures value { (inserted : List ADrawop) (evidence : List FullName) (settled : List Settling) → StoreFits inserted evidence settled self.now
            → result ≡ length (missing inserted evidence stream) }
        ensures last { result ≤ DRAWOPS }
    {
        self.table.places_of_stream(stream).missing()
    }

    /// Returns the first missing name of a stream whose number is above `after`; `None` if there is none. Takes no memory, and a step for each number up to the one
    /// that it returns.
    pub fn next_missing(&self, stream: Stream, after: u32) -> Option<Name>
        ensures { (inserted : List ADrawop) (evidence : List FullName) (settled : List Settling) → StoreFits inserted evidence settled self.now
            → result ≡ next_missing inserted evidence stream after }
    {
        let number = self.table.places_of_stream(stream).next_missing(after);
        name_at(&stream, number)
    }

    /// Returns whether a drawop of this name is held. Takes no memory.
    pub fn holds(&self, name: Name) -> bool
        ensures { (inserted : List ADrawop) (evidence : List FullName) (settled : List Settling) → StoreFits inserted evidence settled self.now
            → result ≡ is_held inserted name }
    {
        self.table
            .places_of_stream(name.stream())
            .holds(name.number())
    }

    /// Returns the drawop that is held under this name. Takes no memory.
    pub fn get(&self, name: Name) -> Option<&Drawop>
        ensures { (inserted : List ADrawop) (evidence : List FullName) (settled : List Settling) → StoreFits inserted evidence settled self.now
            → option_copied result ≡ held_at inserted name }
    {
        self.table
            .places_of_stream(name.stream())
            .get(name.number())
    }

    /// Returns the greatest number of a stream that is known to exist, or 0. Takes no memory.
    pub fn known(&self, stream: Stream) -> u32
        ensures value { (inserted : List ADrawop) (evidence : List FullName) (settled : List Settling) → StoreFits inserted evidence settled self.now
            → result ≡ known evidence stream }
        ensures last { result ≤ DRAWOPS }
    {
        self.table.places_of_stream(stream).known()
    }

    /// Returns how many drawops of a stream may be released: those from number 1 up to the first gap. Takes no memory, and as many steps for any number.
    pub fn released(&self, stream: Stream) -> u32
        ensures value { (inserted : List ADrawop) (evidence : List FullName) (settled : List Settling) → StoreFits inserted evidence settled self.now
            → result ≡ length (released inserted stream) }
        ensures last { result ≤ DRAWOPS }
    {
        self.table.places_of_stream(stream).released()
    }

    /// Notes that a member left, and that its streams go as far as these rows of its streams say. The first settling of a member counts.
    ///
    /// Fails only if out of memory; earlier room stays.
    pub fn settle_final(&mut self, member: Member, rows: &[Name]) -> Result<(), StoreFault>
        ensures fits { OnOk result ((inserted : List ADrawop) (evidence : List FullName) (settled : List Settling) → StoreFits inserted evidence settled self.old
            → StoreFits inserted evidence (settled ++ record { member = member; rows = rows.now } ∷ []) self.new) }
        ensures err { OnErr result (StoreStays self.old self.new) }
        ensures refusal { OnErr result (result ≡ Err Memory) }
        ensures earlier { OnErr result (KeepsRoom self.old self.new) }
        ensures room { IsReadyToSettle (length rows.now) self.old → IsOk result }
        ensures ready { StaysReady self.old self.new }
        ensures slots { self.new.table.pages ≡ self.old.table.pages }
    {
        self.finals.settle(member, rows)?;
        Ok(())
    }

    /// Returns the last number of a stream if its source was settled, 0 if it has no row. Takes no memory.
    pub fn final_of(&self, stream: Stream) -> Option<u32>
        ensures value { (inserted : List ADrawop) (evidence : List FullName) (settled : List Settling) → StoreFits inserted evidence settled self.now
            → result ≡ final settled stream }
        ensures last { IfSome result (λ number. number ≤ DRAWOPS) }
    {
        self.finals.final_of(stream)
    }
}

/// The name of a number of a stream, if there is one.
fn name_at(stream: &Stream, number: Option<u32>) -> Option<Name>
    requires low { IfSome number (λ k. 1 ≤ k) }
    requires last { IfSome number (λ k. k ≤ DRAWOPS) }
    ensures { result ≡ option_map (named stream.now) number }
{
    match number {
        Some(number) => stream.at(number),
        None => None,
    }
}
