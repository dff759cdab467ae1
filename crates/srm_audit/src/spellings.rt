//! The datagrams that were sent, found by a hash of their bytes.

ghost use Rattle.std.specs.Prelude.{◌≡◌, [], ◌∷◌, IfOk, OnOk};
ghost use Rattle.std.specs.List.{AllByRecursion};
ghost use Rattle.srm_codec.specs.Spelling.{IsSpellable};
ghost use Rattle.srm_audit.specs.Spellings.{Knows, Learns, is_spelling, spelling_of as bytes_of};

use srm_codec::{Datagram, encode};
use std::alloc::{AllocError, Global};
use std::collections::HashSet;
use std::marker::Model;

/// The session number that datagrams are encoded with here. All journals are of one session, so any number will do.
const ANY_SESSION: u32 = 0;

/// The datagrams that were sent, by their bytes. Contracts see these, in some order.
#[derive(Drop)]
pub struct Spellings {
    pub(crate) spellings: HashSet<Vec<u8>>,
}

impl Model for Spellings {
    ghost use Rattle.std.specs.Prelude.{ℕ, List, map};

    ghost Value = { List (List ℕ) };

    ghost view = { λ t. map (λ text. text.items) t.spellings.keys };
}

impl Spellings {
    /// Makes an empty set.
    pub fn new(alloc: Global) -> Spellings
        ensures { Knows [] result }
    {
        Spellings {
            spellings: HashSet::new(alloc),
        }
    }

    /// Returns whether these are the bytes of a datagram that was sent.
    pub fn has(&self, text: &[u8]) -> bool
        ensures { result ≡ is_spelling self.now text.now }
    {
        self.spellings.contains(text)
    }

    /// Adds a datagram that was sent. Fails only if out of memory.
    fn add(&mut self, alloc: Global, datagram: &Datagram) -> Result<(), AllocError>
        requires { IsSpellable datagram.now }
        ensures { OnOk result (Learns (datagram.now ∷ []) self.old self.new) }
    {
        let text = spelling_of(alloc, datagram)?;
        self.spellings.insert(text)?;
        Ok(())
    }

    /// Adds datagrams that were sent. Fails only if out of memory, and then some may have been added.
    pub fn add_all(&mut self, alloc: Global, datagrams: &[Datagram]) -> Result<(), AllocError>
        requires { AllByRecursion IsSpellable datagrams.now }
        ensures { OnOk result (Learns datagrams.now self.old self.new) }
    {
        for datagram in datagrams {
            self.add(alloc, datagram)?;
        }
        Ok(())
    }
}

/// Returns the bytes that a datagram is stored as here. Fails only if out of memory.
pub fn spelling_of(alloc: Global, datagram: &Datagram) -> Result<Vec<u8>, AllocError>
    requires { IsSpellable datagram.now }
    ensures { IfOk result (λ text. text.items ≡ bytes_of datagram.now) }
{
    encode(alloc, ANY_SESSION, datagram)
}
