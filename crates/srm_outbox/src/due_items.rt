//! The requests and repairs that a tick hands in.

ghost use Rattle.std.specs.Prelude.{◌≡◌, ◌++◌, List, true, option_map, IfOk, IfSome};
ghost use Rattle.std.specs.List.{AllByRecursion, filter_map};
ghost use Rattle.std.specs.Option.{option_copied};
ghost use Rattle.srm_names.specs.Names.{ascending, name_below};
ghost use Rattle.srm_names.specs.FullName.{FullName};
ghost use Rattle.srm_names.specs.declared.drawop.Drawop.{Drawop as ADrawop};
ghost use Rattle.srm_codec.specs.declared.datagram.Datagram.TheVariants.{Repair};
ghost use Rattle.srm_codec.specs.Spelling.{is_drawop, length_of};
ghost use Rattle.srm_store.specs.Held.{held_at};
ghost use Rattle.srm_store.specs.Finals.{Settling};
ghost use Rattle.srm_store.specs.Fits.{StoreFits};
ghost use Rattle.srm_bucket.specs.Waiting.{IsLength};
ghost use Rattle.srm_entries.specs.Bucket.{class_for, page_of};
ghost use Rattle.srm_entries.specs.Packing.{packed};
ghost use Rattle.srm_outbox.specs.DueItems.{HoldsSpellable, MayHandIn, IsDueItem, AreDueItems};

use crate::out::Outgoing;
use crate::packing::packed;
use srm_bucket::{Class, Item};
use srm_codec::{Datagram, length};
use srm_names::{Drawop, Member, Name, Page};
use srm_store::Store;
use std::alloc::{AllocError, Global};
use std::collections::VecDeque;

/// A request or a repair to hand in to the bucket, with its class.
#[derive(Drop)]
pub struct DueItem {
    /// Its class in the bucket.
    pub class: Class,
    /// The datagram, with the bytes that it is charged.
    pub item: Item<Outgoing>,
}

/// Returns the requests for the names `asks`, which rise, packed, and then a repair for each of `fixes` that is held, in order.
///
/// All that the store holds can be spelled, so no repair is left out. Repairs share the bodies of the store. Fails only if out of memory.
pub fn requests_and_repairs(
    alloc: Global,
    me: Member,
    store: &Store,
    asks: &[Name],
    fixes: &[Name],
) -> Result<VecDeque<Datagram>, AllocError>
    requires rising { ascending name_below asks.now ≡ true }
    requires spellable { HoldsSpellable store.now }
    ensures value { IfOk result (λ datagrams. (held : List ADrawop) (evidence : List FullName) (settled : List Settling) → StoreFits held evidence settled store.now
        → datagrams.items ≡ packed me asks.now ++ filter_map (λ n. option_map (Repair me) (held_at held n)) fixes.now) }
    ensures each { IfOk result (λ datagrams. AllByRecursion (MayHandIn me) datagrams.items) }
{
    let mut datagrams = packed(alloc, me, asks)?;
    for name in fixes {
        if let Some(repair) = repair(me, store.get(*name))? {
            datagrams.push_back(repair)?;
        }
    }
    Ok(datagrams)
}

/// Returns the repair with the held drawop, if there is one. Fails only if out of memory.
fn repair(me: Member, held: Option<&Drawop>) -> Result<Option<Datagram>, AllocError>
    requires { IfSome (option_copied held) is_drawop }
    ensures value { IfOk result (λ repair. repair ≡ option_map (Repair me) (option_copied held.entry)) }
    ensures each { IfOk result (λ repair. IfSome repair (MayHandIn me)) }
{
    let Some(drawop) = held else {
        return Ok(None);
    };
    let _ = me.number();
    Ok(Some(Datagram::Repair {
        sender: me,
        drawop: drawop.copy()?,
    }))
}

/// Spells datagrams of a session, in order, and returns them with the class that each has while page `showing` is shown.
///
/// Fails only if out of memory; the datagrams are dropped then.
pub fn spelled(
    alloc: Global,
    me: Member,
    session: u32,
    showing: &Page,
    mut datagrams: VecDeque<Datagram>,
) -> Result<VecDeque<DueItem>, AllocError>
    requires { AllByRecursion (MayHandIn me) datagrams.items }
    ensures { IfOk result (λ items. AreDueItems me session showing.now datagrams.items items.items) }
{
    let mut items = VecDeque::new(alloc);
    while let Some(datagram) = datagrams.pop_front() {
        items.push_back(spell(alloc, me, session, showing, datagram)?)?;
    }
    Ok(items)
}

/// Spells one datagram, and returns it with its class. Fails only if out of memory.
fn spell(
    alloc: Global,
    me: Member,
    session: u32,
    showing: &Page,
    datagram: Datagram,
) -> Result<DueItem, AllocError>
    requires { MayHandIn me datagram }
    ensures { IfOk result (λ item. IsDueItem me session showing.now datagram item) }
{
    let class = class_for(showing, &page_of(&datagram));
    let length = length_in_bytes(&datagram, &me);
    let value = Outgoing::new(alloc, session, datagram)?;
    Ok(DueItem {
        class,
        item: Item { value, length },
    })
}

/// Returns how many bytes a datagram has, 1 to 1,051: what its item costs.
fn length_in_bytes(datagram: &Datagram, me: &Member) -> u32
    requires { MayHandIn me.now datagram.now }
    ensures value { result ≡ length_of datagram.now }
    ensures range { IsLength result }
{
    length(datagram) as u32
}

/// Returns the page that a datagram is for. A session message is for none.
fn page_of(datagram: &Datagram) -> Option<Page>
    ensures { result ≡ page_of datagram.now }
{
    match datagram {
        Datagram::Data(drawop) => Some(drawop.name.stream().page),
        Datagram::Request { name, .. } => Some(name.stream().page),
        Datagram::Repair { drawop, .. } => Some(drawop.name.stream().page),
        Datagram::Session { .. } => None,
    }
}

/// Returns the class of a datagram for a page while page `showing` is shown.
fn class_for(showing: &Page, page: &Option<Page>) -> Class
    ensures { result ≡ class_for showing.now page.now }
{
    match page {
        Some(page) if page == showing => Class::Shown,
        _ => Class::Other,
    }
}
