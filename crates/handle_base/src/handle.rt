//! Handles that C keeps.
ghost use Rattle.std.specs.Prelude.{◌≡◌, Option, None, Some, MatchOption};
ghost use Rattle.handle_base.specs.declared.kept.Kept.{Kept as Value};
ghost use Rattle.handle_base.specs.Keeping.{IsKept};
ghost use Rattle.handle_base.specs.Held.{handle_owns, kept_coded};

use crate::kept::Kept;
use crate::parts::Parts;
use std::alloc::Global;
use std::marker::Model;
use std::mem::replace;
use std::ptr::null_mut;

/// A handle: empty, or what a box owns.
#[repr(C)]
pub struct Handle {
    at: *mut u8,
    alloc: Global,
    pub ghost kept: { Option Value } by { kept_coded },
}

impl Model for Handle {
    ghost also_owns = { λ h. handle_owns h.alloc h.at h.kept };
}

impl Handle {
    /// An empty handle.
    pub fn empty(alloc: Global) -> Handle
        ensures { result.kept ≡ None }
    {
        Handle {
            at: null_mut(),
            alloc,
        }
    }

    fn of_parts(parts: Parts<Kept, Global>) -> Handle
        requires { IsKept parts.value }
        ensures { result.kept ≡ Some parts.value }
    {
        let Parts { ptr, alloc } = parts;
        Handle {
            at: ptr as *mut u8,
            alloc,
        }
    }

    fn into_parts(self) -> Option<Parts<Kept, Global>>
        ensures { MatchOption result (self.kept ≡ None) (λ parts. (self.kept ≡ Some parts.value) × IsKept parts.value) }
    {
        let Handle { at, alloc } = self;
        if at.is_null() {
            None
        } else {
            Some(Parts {
                ptr: at as *mut Kept,
                alloc,
            })
        }
    }

    /// Ends a handle. Requires that it is empty, so that there is nothing to drop. It tests nothing.
    pub fn end(self)
        requires { self.kept ≡ None }
    {
        let Handle { at: _, alloc: _ } = self;
    }

    /// Takes what the handle keeps. It is empty then.
    pub fn take(&mut self, alloc: Global) -> Option<Box<Kept>>
        ensures empty { self.new.kept ≡ None }
        ensures kept { MatchOption result (self.old.kept ≡ None) (λ b. (self.old.kept ≡ Some b.value) × IsKept b.value) }
    {
        match replace(self, Handle::empty(alloc)).into_parts() {
            None => None,
            Some(parts) => Some(parts.into_box()),
        }
    }

    /// Puts a box into the handle. What it kept before is dropped.
    pub fn put(&mut self, b: Box<Kept>)
        requires { IsKept b.value }
        ensures { self.new.kept ≡ Some b.value }
    {
        let before = replace(self, Handle::of_parts(Parts::of(b)));
        if let Some(parts) = before.into_parts() {
            drop(parts.into_box());
        }
    }

    /// Puts a box into the handle. Requires that it is empty, so that there is nothing to drop.
    pub fn put_back(&mut self, b: Box<Kept>)
        requires empty { self.old.kept ≡ None }
        requires kept { IsKept b.value }
        ensures { self.new.kept ≡ Some b.value }
    {
        replace(self, Handle::of_parts(Parts::of(b))).end();
    }
}

unsafe impl Send for Handle {}
