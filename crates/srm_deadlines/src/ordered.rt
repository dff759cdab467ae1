//! Deadlines in order.

ghost use Rattle.std.specs.Prelude.{◌≡◌, [], ◌∷◌, true, OnOk, IsOk};
ghost use Rattle.srm_names.specs.Names.{ascending, name_below};
ghost use Rattle.srm_deadlines.specs.Places.{has_place, names_of, KeepsPlaces, GivesPlaces, KeepsValues, SetsAll, ClearsAll, HasPlaces};

use crate::agenda::Agenda;
use crate::by_name::ByName;
use crate::deadlines::Deadlines;
use crate::timed::Timed;
use srm_names::Name;
use std::alloc::{AllocError, Global};
use std::marker::Model;

/// So many moments are set one by one rather than sorted in.
const FEW: usize = 16;

/// Deadlines kept twice: by name, each found by a hash, and in order of moment and then of name.
///
/// The first deadline is the first of the order, and what has expired is its front. A binary search finds where one is put in or taken
/// out; many are put in at the end and sorted.
#[derive(Drop)]
pub struct Ordered {
    agenda: Agenda,
    moments: ByName<u64>,
}

impl Model for Ordered {
    ghost use Rattle.std.specs.Prelude.{ℕ, List};
    ghost use Rattle.srm_deadlines.specs.declared.by_name.NamedValue.{NamedValue};
    ghost use Rattle.srm_deadlines.specs.Agenda.{AgendaFits};

    ghost Value = { List (NamedValue ℕ) };

    ghost view = { λ o. o.moments };

    ghost invariant = { λ o. AgendaFits o.agenda o.moments };
}

impl Ordered {
    /// Makes deadlines without places. Takes no memory.
    pub fn new(alloc: Global) -> Self
        ensures { result ≡ [] }
    {
        Ordered {
            agenda: Agenda::new(alloc),
            moments: ByName::new(alloc),
        }
    }

    /// Makes a place for a name, unless it has one: room in the order, and then a place by name.
    fn make_place(&mut self, name: Name) -> Result<(), AllocError>
        ensures kept { KeepsValues self.old self.new }
        ensures keeps_places { KeepsPlaces self.old self.new }
        ensures only { GivesPlaces (name ∷ []) self.old self.new }
        ensures ok { OnOk result (has_place self.new name ≡ true) }
        ensures again { has_place self.old name ≡ true → IsOk result }
    {
        if self.moments.has_place(name) {
            return Ok(());
        }
        self.agenda.reserve(self.moments.len() + 1)?;
        self.moments.make_place(name)
    }

    /// Sets moments one by one: each moves what stands behind it.
    fn set_few(&mut self, moments: &[Timed])
        requires rising { ascending name_below (names_of moments.now) ≡ true }
        requires places { HasPlaces (names_of moments.now) self.old }
        ensures sets { SetsAll moments.now self.old self.new }
        ensures keeps_places { KeepsPlaces self.old self.new }
        ensures only { GivesPlaces [] self.old self.new }
    {
        for timed in moments {
            self.set(timed.name, timed.moment);
        }
    }

    /// Sets moments in one go: all is moved and sorted once.
    fn set_many(&mut self, moments: &[Timed])
        requires rising { ascending name_below (names_of moments.now) ≡ true }
        requires places { HasPlaces (names_of moments.now) self.old }
        ensures sets { SetsAll moments.now self.old self.new }
        ensures keeps_places { KeepsPlaces self.old self.new }
        ensures only { GivesPlaces [] self.old self.new }
    {
        self.agenda.remove_timed(moments);
        self.moments.set_all(moments);
        self.agenda.extend(moments);
    }

    /// Takes the moments of names away in one go: all that stands behind them is moved once.
    fn clear_many(&mut self, names: &[Name])
        requires { ascending name_below names.now ≡ true }
        ensures sets { ClearsAll names.now self.old self.new }
        ensures keeps_places { KeepsPlaces self.old self.new }
        ensures only { GivesPlaces [] self.old self.new }
    {
        self.agenda.remove_all(names);
        self.moments.clear_all(names);
    }
}

impl Deadlines for Ordered {
    ghost places = { λ o. o };

    fn room(&mut self, names: &[Name]) -> Result<(), AllocError> {
        for name in names {
            self.make_place(*name)?;
        }
        Ok(())
    }

    fn set(&mut self, name: Name, moment: u64) {
        self.agenda.remove(name, self.moments.get(name));
        self.moments.set(name, Some(moment));
        self.agenda.insert(Timed { moment, name });
    }

    fn set_all(&mut self, moments: &[Timed]) {
        if moments.len() <= FEW {
            self.set_few(moments);
        } else {
            self.set_many(moments);
        }
    }

    fn clear(&mut self, name: Name) {
        self.agenda.remove(name, self.moments.get(name));
        self.moments.clear(name);
    }

    fn clear_all(&mut self, names: &[Name]) {
        if !names.is_empty() {
            self.clear_many(names);
        }
    }

    fn get(&self, name: Name) -> Option<u64> {
        self.moments.get(name)
    }

    fn due(&self, now: u64, names: &mut Vec<Name>) -> Result<(), AllocError> {
        self.agenda.due(now, names)
    }

    fn next(&self) -> Option<u64> {
        Some(self.agenda.first()?.moment)
    }
}
