//! Calls in one order, by what the next one needs to know of them.

ghost use Rattle.std.specs.Prelude.{◌≡◌, ◌<◌, [], ◌∷◌, ◌+◌, slice_set, length, IfOk, OnOk};
ghost use Rattle.std.specs.List.{AllByRecursion};
ghost use Rattle.srm_codec.specs.Spelling.{IsSpellable};
ghost use Rattle.srm_audit.specs.Spellings.{Learns, is_spelling, spelling_of};
ghost use Rattle.srm_gaps.specs.Orders.{Enters, IsOrderOf, count_in};

use srm_codec::{Datagram, encode};
use srm_entries::Entry;
use srm_names::{MEMBERS, Member};
use std::alloc::{AllocError, Global};
use std::collections::HashSet;
use std::marker::Model;

/// The session number that datagrams are encoded with here. All records are of one session, so any number will do.
const ANY_SESSION: u32 = 0;

/// How many calls of each member are in order, and the bytes of what they sent.
#[derive(Drop)]
pub struct Order {
    counts: Vec<usize>,
    sent: HashSet<Vec<u8>>,
}

impl Model for Order {
    ghost use Rattle.std.specs.Prelude.{◌≡◌, length, map};
    ghost use Rattle.srm_names.specs.declared.limits.TheConstants.{MEMBERS};
    ghost use Rattle.srm_gaps.specs.Orders.{OrderView};

    ghost Value = { OrderView };

    ghost view = { λ o. record { counts = o.counts.items; spellings = map (λ text. text.items) o.sent.keys } };

    ghost invariant = { λ o. length o.counts.items ≡ MEMBERS };
}

impl Order {
    /// Makes an order without calls. Fails only if out of memory.
    #[tactic(auto, using(crate::proofs::Following::none_in_order))]
    pub fn new(alloc: Global) -> Result<Order, AllocError>
        ensures { IfOk result (IsOrderOf []) }
    {
        Ok(Order {
            counts: vec![in alloc; 0; usize::from(MEMBERS)]?,
            sent: HashSet::new(alloc),
        })
    }

    /// Returns how many calls of a member are in order.
    pub fn count(&self, member: Member) -> usize
        ensures { result ≡ count_in self.now.counts member }
    {
        self.counts.get(member.index()).copied().unwrap_or(0)
    }

    /// Returns whether the calls sent a datagram. Fails only if out of memory.
    pub fn has_sent(&self, alloc: Global, datagram: &Datagram) -> Result<bool, AllocError>
        requires { IsSpellable datagram.now }
        ensures { IfOk result (λ found. found ≡ is_spelling self.now.spellings (spelling_of datagram.now)) }
    {
        let text = text_of(alloc, datagram)?;
        Ok(self.has(text.as_slice()))
    }

    fn has(&self, text: &[u8]) -> bool
        ensures { result ≡ is_spelling self.now.spellings text.now }
    {
        self.sent.contains(text)
    }

    /// Puts a call behind the others. Fails only if out of memory.
    pub fn enter(&mut self, alloc: Global, entry: &Entry) -> Result<(), AllocError>
        requires { AllByRecursion IsSpellable entry.now.effects.outs }
        ensures { OnOk result (Enters entry.now self.old self.new) }
    {
        self.learn_all(alloc, entry.effects.outs.as_slice())?;
        self.count_one(entry.member)?;
        Ok(())
    }

    fn learn_all(&mut self, alloc: Global, datagrams: &[Datagram]) -> Result<(), AllocError>
        requires { AllByRecursion IsSpellable datagrams.now }
        ensures learns { OnOk result (Learns datagrams.now self.old.spellings self.new.spellings) }
        ensures counts { OnOk result (self.new.counts ≡ self.old.counts) }
    {
        for datagram in datagrams {
            self.learn(alloc, datagram)?;
        }
        Ok(())
    }

    fn learn(&mut self, alloc: Global, datagram: &Datagram) -> Result<(), AllocError>
        requires { IsSpellable datagram.now }
        ensures learns { OnOk result (Learns (datagram.now ∷ []) self.old.spellings self.new.spellings) }
        ensures counts { OnOk result (self.new.counts ≡ self.old.counts) }
    {
        let text = text_of(alloc, datagram)?;
        self.sent.insert(text)?;
        Ok(())
    }

    // Fails where there are more calls than memory can hold.
    fn count_one(&mut self, member: Member) -> Result<(), AllocError>
        ensures room { OnOk result (member < length self.old.counts) }
        ensures value { OnOk result (self.new ≡ record self.old { counts = slice_set self.old.counts member (count_in self.old.counts member + 1) }) }
    {
        let count = self.count(member).checked_add(1).ok_or(AllocError)?;
        self.counts[member.index()] = count;
        Ok(())
    }
}

// The bytes that a datagram is stored as here.
fn text_of(alloc: Global, datagram: &Datagram) -> Result<Vec<u8>, AllocError>
    requires { IsSpellable datagram.now }
    ensures { IfOk result (λ text. text.items ≡ spelling_of datagram.now) }
{
    encode(alloc, ANY_SESSION, datagram)
}
