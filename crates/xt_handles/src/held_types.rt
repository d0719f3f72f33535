ghost use Rattle.std.specs.Prelude.{◌≡◌, Some, None};
ghost use Rattle.std.specs.Option.{MatchOption};
ghost use Rattle.xt_handles.specs.TypesHeld.{Held, held_code, held_owns};

use crate::boxes::Loose;
use std::alloc::Global;
use std::marker::Model;
use std::mem::replace;
use std::ptr::null_mut;
use xt_calls::Types;

/// A handle that C keeps: null, or where the types of a bundle lies. C begins with null, never copies a handle and never writes to it.
#[repr(C)]
pub struct TypesHandle {
    at: *mut u8,
    pub ghost held: { Held } by { held_code },
}

impl Model for TypesHandle {
    ghost also_owns = { λ h. held_owns h.at h.held };
}

impl TypesHandle {
    fn none() -> TypesHandle
        ensures { result.held ≡ None }
    {
        TypesHandle { at: null_mut() }
    }

    fn of_loose(loose: Loose<Types, Global>) -> TypesHandle
        ensures { result.held ≡ Some loose.value }
    {
        let Loose { at, alloc: _ } = loose;
        TypesHandle { at: at as *mut u8 }
    }

    fn into_loose(self, alloc: Global) -> Option<Loose<Types, Global>>
        ensures { MatchOption result (self.held ≡ None) (λ l. self.held ≡ Some l.value) }
    {
        let TypesHandle { at } = self;
        if at.is_null() {
            None
        } else {
            Some(Loose {
                at: at as *mut Types,
                alloc,
            })
        }
    }

    /// Takes what the handle holds, and leaves it null.
    pub fn take(&mut self, alloc: Global) -> Option<Box<Types>>
        ensures after { self.new.held ≡ None }
        ensures taken { MatchOption result (self.old.held ≡ None) (λ b. self.old.held ≡ Some b.value) }
    {
        match replace(self, TypesHandle::none()).into_loose(alloc) {
            None => None,
            Some(loose) => Some(loose.into_box()),
        }
    }

    /// Puts a box into the handle. What it held is freed.
    pub fn put(&mut self, alloc: Global, kept: Box<Types>)
        ensures { self.new.held ≡ Some kept.value }
    {
        match replace(self, TypesHandle::of_loose(Loose::of(kept))).into_loose(alloc) {
            None => (),
            Some(loose) => drop(loose.into_box()),
        }
    }

    /// Frees what the handle holds, if it holds anything.
    pub fn close(&mut self, alloc: Global)
        ensures { self.new.held ≡ None }
    {
        match self.take(alloc) {
            None => (),
            Some(kept) => drop(kept),
        }
    }
}

unsafe impl Send for TypesHandle {}
