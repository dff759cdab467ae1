//! The box of a seal as a handle that C keeps.

ghost use Rattle.std.specs.Prelude.{◌≡◌};
ghost use Rattle.std.specs.Option.{MatchOption};
ghost use Rattle.std.specs.declared.option.Option.{Option as AnOption};
ghost use Rattle.std.specs.declared.option.Option.TheVariants.{None, Some};
ghost use Rattle.srm_guard.specs.contracts.seal.Seal.{the_row as seal_row};
ghost use Rattle.srm_guard.specs.Seals.{SealView};
ghost use Rattle.srm_handle.specs.Held.{held};

use srm_guard::Seal;
use srm_handle::Loose;
use std::alloc::Global;
use std::marker::Model;
use std::ptr::null_mut;

/// Memory of C's that owns the box of a seal, or nothing. All zeroes is an empty handle. Contracts see what it holds.
///
/// C declares it as a pointer and a `bool`, since the allocator takes no bytes. C may move a handle and pass it to another thread, but must
/// not copy it, and makes one call of it at a time.
#[repr(C)]
pub struct SealHandle {
    at: *mut u8,
    is_full: bool,
    alloc: Global,
    pub ghost value: { AnOption SealView },
}

impl Model for SealHandle {
    ghost also_owns = { λ h. held seal_row h.alloc h.is_full h.at h.value };
}

impl SealHandle {
    /// Takes the seal out and returns it; `None` if there is none. The handle is empty then. Takes no memory.
    pub fn take(&mut self, alloc: Global) -> Option<Box<Seal>>
        ensures taken { MatchOption result (self.old.value ≡ None) (λ seal. self.old.value ≡ Some seal.value) }
        ensures left { self.new.value ≡ None }
    {
        match std::mem::replace(self, SealHandle::empty(alloc)).show() {
            Some(loose) => Some(loose.into_box()),
            None => None,
        }
    }

    /// Puts a seal into the handle, and drops the seal that it held. Takes no memory.
    pub fn put(&mut self, seal: Box<Seal>)
        ensures { self.new.value ≡ Some seal.value }
    {
        *self = SealHandle::hide(Loose::of(seal));
    }

    pub(crate) fn empty(alloc: Global) -> SealHandle
        ensures { result.value ≡ None }
    {
        SealHandle {
            at: null_mut(),
            is_full: false,
            alloc,
        }
    }

    pub(crate) fn hide(loose: Loose<Seal, Global>) -> SealHandle
        ensures { result.value ≡ Some loose.value }
    {
        let Loose { at, alloc } = loose;
        SealHandle {
            at: at as *mut u8,
            is_full: true,
            alloc,
        }
    }

    pub(crate) fn show(self) -> Option<Loose<Seal, Global>>
        ensures { MatchOption result (self.value ≡ None) (λ l. self.value ≡ Some l.value) }
    {
        let SealHandle { at, is_full, alloc } = self;
        if is_full {
            Some(Loose {
                at: at as *mut Seal,
                alloc,
            })
        } else {
            None
        }
    }
}

impl Drop for SealHandle {
    fn drop(self) {
        if let Some(loose) = self.show() {
            drop(loose.into_box());
        }
    }
}
