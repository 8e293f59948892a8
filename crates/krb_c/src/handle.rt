//! The handle that C holds: a struct of one pointer.

ghost use Rattle.std.specs.Prelude.{◌≡◌, ◌⊎◌, Option, Some, None, IsSome, option_map};
ghost use Rattle.std.specs.Ptr.{null_ptr};
ghost use Rattle.krb_c.specs.declared.held.Held.{Held};
ghost use Rattle.krb_c.specs.Handle.{handle_owns, held_coded};

use crate::held::Held;
use crate::parts::Parts;
use crate::status::{DONE, NO_MEMORY};
use std::alloc::Global;
use std::marker::Model;
use std::{mem, ptr};

/// A keytab or a cache behind a pointer, or nothing: then the handle is empty. C knows which by what calls returned.
#[repr(C)]
#[derive(Drop)]
pub struct Handle {
    ptr: *mut u8,
    alloc: Global,
    pub ghost held: { Option Held } by { held_coded },
}

impl Model for Handle {
    ghost also_owns = { λ h. handle_owns h.alloc h.ptr h.held };
}

impl Handle {
    // Returns an empty handle, whose pointer is null.
    fn none_at(ptr: *mut u8, alloc: Global) -> Handle
        requires { ptr ≡ null_ptr }
        ensures { result.held ≡ None }
    {
        Handle { ptr, alloc }
    }

    fn of_parts(parts: Parts<Held, Global>) -> Handle
        ensures { result.held ≡ Some parts.value }
    {
        let Parts { ptr, alloc } = parts;
        Handle {
            ptr: ptr as *mut u8,
            alloc,
        }
    }

    // Returns the parts of the box behind it, or `None` if it is empty: then its pointer is null.
    fn parts(self) -> Option<Parts<Held, Global>>
        ensures { self.held ≡ option_map (λ p. p.value) result }
    {
        let Handle { ptr, alloc } = self;
        if ptr.is_null() {
            None
        } else {
            Some(Parts {
                ptr: ptr as *mut Held,
                alloc,
            })
        }
    }

    // Returns the null pointer.
    fn nowhere() -> *mut u8
        ensures { result ≡ null_ptr }
    {
        ptr::null_mut()
    }

    /// Returns an empty handle.
    pub fn none(alloc: Global) -> Handle
        ensures { result.held ≡ None }
    {
        Handle::none_at(Handle::nowhere(), alloc)
    }

    // Takes the parts out of it, and leaves it empty. `None` if it was.
    fn take_parts(&mut self, alloc: Global) -> Option<Parts<Held, Global>>
        ensures taken { self.old.held ≡ option_map (λ p. p.value) result }
        ensures left { self.new.held ≡ None }
    {
        mem::replace(self, Handle::none(alloc)).parts()
    }

    /// Takes the box out of it, and leaves it empty.
    pub fn take(&mut self, alloc: Global) -> Box<Held, Global>
        requires { IsSome self.old.held }
        ensures taken { self.old.held ≡ Some result.value }
        ensures left { self.new.held ≡ None }
    {
        match self.take_parts(alloc) {
            Some(parts) => parts.into_box(),
            None => unreachable!(),
        }
    }

    /// Puts a box into an empty handle.
    pub fn put(&mut self, held: Box<Held, Global>)
        requires { self.old.held ≡ None }
        ensures { self.new.held ≡ Some held.value }
    {
        *self = Handle::of_parts(Parts::of(held));
    }

    /// Puts a keytab or a cache into an empty handle, and returns `DONE` or `NO_MEMORY`.
    pub fn fill(&mut self, alloc: Global, held: Held) -> u32
        requires { self.old.held ≡ None }
        ensures { ((result ≡ 0) × (self.new.held ≡ Some held)) ⊎ ((result ≡ 1) × (self.new.held ≡ None)) }
    {
        let Ok(held) = Box::new(alloc, held) else {
            return NO_MEMORY;
        };
        self.put(held);
        DONE
    }

    /// Frees what is behind it, and leaves it empty. An empty one stays so.
    pub fn free(&mut self, alloc: Global)
        ensures { self.new.held ≡ None }
    {
        if let Some(parts) = self.take_parts(alloc) {
            drop(parts.into_box());
        }
    }
}

/// A handle to a keytab.
pub type KrbfKeytab = Handle;

/// A handle to a cache.
pub type KrbfCcache = Handle;

/// Takes the box out of a handle for a call, and puts it back.
macro_rules! with_held {
    ($handle:ident, $alloc:ident, $held:ident => $call:expr) => {{
        let mut $held = $handle.take($alloc);
        let answer = $call;
        $handle.put($held);
        answer
    }};
}

/// Does this with the record at a place, if there is one.
macro_rules! if_live {
    ($found:expr, $record:ident => $call:expr) => {
        match $found {
            Some($record) => $call,
            None => crate::status::of_code(krb_walk::Code::NotLive),
        }
    };
}

pub(crate) use if_live;
pub(crate) use with_held;

// What it owns is in the heap, and any thread may free it.
unsafe impl Send for Handle {}
