//! Which names are asked for.

ghost use Rattle.std.specs.Prelude.{◌≡◌};
ghost use Rattle.krb_names.specs.Asked.{asks_for_any, nothing_asked};

use krb_wire::Principal;
use std::alloc::Allocator;
use std::marker::Model;

/// The names that are asked for. If there is neither a text nor a pattern, any is.
#[derive(Drop)]
pub struct AskedNames<A: Allocator> {
    /// Those that print as one of these.
    pub texts: Vec<Vec<u8, A>, A>,
    /// Those that fit one of these, which may have a `STAR` in a component or in the realm.
    pub patterns: Vec<Principal<A>, A>,
}

impl<A: Allocator> Model for AskedNames<A> {
    ghost use Rattle.std.specs.Prelude.{map};
    ghost use Rattle.std.specs.Vec.{vec_items};
    ghost use Rattle.krb_wire.specs.Reading.{principal_parts};
    ghost use Rattle.krb_names.specs.Asked.{AskedParts};

    ghost Value = { AskedParts };

    ghost view = { λ asked. record {
      texts = map vec_items asked.texts.items;
      patterns = map principal_parts asked.patterns.items;
    } };
}

impl<A: Allocator + Copy> AskedNames<A> {
    /// Returns any names.
    pub fn any(alloc: A) -> AskedNames<A>
        ensures { result ≡ nothing_asked }
    {
        AskedNames {
            texts: Vec::new(alloc),
            patterns: Vec::new(alloc),
        }
    }
}

impl<A: Allocator> AskedNames<A> {
    /// Returns whether any name is asked for.
    pub fn is_any(&self) -> bool
        ensures { result ≡ asks_for_any self.now }
    {
        self.texts.is_empty() && self.patterns.is_empty()
    }
}
