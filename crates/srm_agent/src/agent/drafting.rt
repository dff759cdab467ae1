//! Drawops that are about to be drawn.

ghost use Rattle.std.specs.Prelude.{◌≡◌, ◌≤◌, ◌<◌, List, [], ◌∷◌, Ok, Err, IfOk, OnOk, true, length};
ghost use Rattle.srm_names.specs.declared.drawop.Drawop.{Drawop as ADrawop};
ghost use Rattle.srm_names.specs.declared.limits.TheConstants.{LATEST_MOMENT, LONGEST_BODY};
ghost use Rattle.srm_names.specs.FullName.{FullName};
ghost use Rattle.srm_codec.specs.declared.datagram.Datagram.TheVariants.{Data};
ghost use Rattle.srm_codec.specs.Spelling.{is_drawop, length_of};
ghost use Rattle.srm_store.specs.declared.fault.StoreFault.TheVariants.{PageLimit};
ghost use Rattle.srm_store.specs.Held.{outgrow};
ghost use Rattle.srm_store.specs.Finals.{Settling};
ghost use Rattle.srm_store.specs.Stores.{HavePlaces};
ghost use Rattle.srm_store.specs.Fits.{StoreFits, StoreStays};
ghost use Rattle.srm_bucket.specs.Fits.{BucketStays};
ghost use Rattle.srm_agent.specs.Drawing.{IsDraftOf};
ghost use Rattle.srm_outbox.specs.Outs.{IsOutgoingOf};

use super::Agent;
use bytes::Bytes;
use srm_bucket::Item;
use srm_codec::{Datagram, length};
use srm_names::{Drawop, MEMBERS, Name};
use srm_outbox::Outgoing;
use srm_store::StoreFault;
use srm_timers::Words;
use std::alloc::{AllocError, Global};

/// A drawop that is about to be drawn: one to hold, and one to send.
#[derive(Debug, Drop)]
pub(super) struct Draft {
    /// The drawop to hold.
    pub held: Drawop,
    /// The drawop to send.
    pub going: Item<Outgoing>,
}

impl<W: Words + Drop> Agent<W> {
    /// Makes a drawop to hold and one to send, and room for both, so that drawing it takes no memory.
    pub(super) fn draft(
        &mut self,
        name: Name,
        moment: u64,
        body: Bytes,
    ) -> Result<Draft, StoreFault>
        requires moment { moment ≤ LATEST_MOMENT }
        requires short { length body ≤ LONGEST_BODY }
        ensures rest { self.new ≡ record self.old { store = self.new.store; bucket = self.new.bucket } }
        ensures store { StoreStays self.old.store self.new.store }
        ensures bucket { BucketStays self.old.bucket self.new.bucket }
        ensures made { IfOk result (IsDraftOf self.old.config.session (record { name = name; stamp = moment; body = body })) }
        ensures spellable { OnOk result (is_drawop (record { name = name; stamp = moment; body = body })) }
        ensures ready { OnOk result (HavePlaces (name ∷ []) self.new.store) }
        ensures room { OnOk result (0 < self.new.bucket.waiting.room) }
        ensures limit { result ≡ Err PageLimit → (inserted : List ADrawop) (shown : List FullName) (settled : List Settling) → StoreFits inserted shown settled self.old.store
            → outgrow inserted shown (name.stream.page ∷ []) ≡ true }
        ensures same { result ≡ Err PageLimit → self.new ≡ self.old }
    {
        self.store.room_to_learn(&[name])?;
        self.bucket.room(1)?;
        let draft = make_draft(self.alloc, self.config.session(), name, moment, body)?;
        Ok(draft)
    }
}

/// A drawop to hold and to send, with its own moment as stamp.
fn make_draft(
    alloc: Global,
    session: u32,
    name: Name,
    moment: u64,
    body: Bytes,
) -> Result<Draft, AllocError>
    requires moment { moment ≤ LATEST_MOMENT }
    requires short { length body ≤ LONGEST_BODY }
    ensures made { IfOk result (IsDraftOf session (record { name = name; stamp = moment; body = body })) }
    ensures spellable { OnOk result (is_drawop (record { name = name; stamp = moment; body = body })) }
{
    prove!(name.source().number() < MEMBERS);
    prove!(name.stream().page.creator.number() < MEMBERS);
    let held = Drawop {
        name,
        stamp: moment,
        body,
    };
    let going = going(alloc, session, held.copy()?)?;
    Ok(Draft { held, going })
}

/// A drawop to send. The rate charges the bytes of its datagram.
fn going(alloc: Global, session: u32, drawop: Drawop) -> Result<Item<Outgoing>, AllocError>
    requires { is_drawop drawop }
    ensures value { IfOk result (λ item. IsOutgoingOf session (Data drawop) item.value) }
    ensures length { IfOk result (λ item. item.length ≡ length_of (Data drawop)) }
{
    let datagram = Datagram::Data(drawop);
    let length = length(&datagram) as u32;
    Ok(Item {
        value: Outgoing::new(alloc, session, datagram)?,
        length,
    })
}
