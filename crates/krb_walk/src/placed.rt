//! What a session requires of a store.

ghost use Rattle.std.specs.Prelude.{◌≡◌, true, IsSome, IfOk, OnOk, OnErr, Some, map};
ghost use Rattle.krb_walk.specs.Store.{IsPlace, IsSound, end_of, fault_of, is_place, live_bytes, stop_at};
ghost use Rattle.krb_walk.specs.Changes.{Cuts, Puts};
ghost use Rattle.std.specs.List.{AllByRecursion};
ghost use Rattle.krb_walk.specs.Ranks.{carry, Rewrites};
ghost use Rattle.krb_walk.specs.Rules.{Rules, PutGives, CutGives, RewriteGives};
ghost use Rattle.krb_walk.specs.Events.{HadMemory};

use crate::fault::Fault;
use crate::refusal::{Code, Refusal};
use crate::stop::Stop;

/// A list of adjacent cells, each live or free, from `first()` to `end()`. A place is the number of bytes, or of
/// whatever the store counts, before a cell.
pub trait Placed {
    /// The type of the items that can be added.
    type Item;

    /// The part of it that changes, over which the rules are defined.
    ghost State: { Type 0 };

    /// Its current state.
    ghost state_of: { Self → State };

    /// The store that a state represents, and the results of additions, removals and rewrites.
    ghost rules: { Rules State Self.Item };

    fn first(&self) -> u32
        ensures first { result ≡ (rules.seen (state_of self.now)).first }
        ensures sound { IsSound (rules.seen (state_of self.now)) };

    /// Returns the place after the last cell, where the fault is, if there is one.
    fn end(&self) -> u32
        ensures { result ≡ end_of (rules.seen (state_of self.now)) };

    /// Returns the fault at `end()`, if there is one.
    fn fault(&self) -> Option<Fault>
        ensures { result ≡ fault_of (rules.seen (state_of self.now)) };

    /// Returns whether a number is the place of a cell, live or free, or `end()`.
    fn is_place(&self, place: u32) -> bool
        ensures { result ≡ is_place (rules.seen (state_of self.now)) place };

    /// Returns the first live cell at or after a place; if there is none, the fault, or else the end.
    fn stop_at(&self, place: u32) -> Stop
        requires { IsPlace (rules.seen (state_of self.now)) place }
        ensures { result ≡ stop_at (rules.seen (state_of self.now)) place };

    /// Returns the bytes of the live cell at a place.
    fn bytes_at(&self, place: u32) -> &[u8]
        requires { IsSome (live_bytes (rules.seen (state_of self.now)) place) }
        ensures { live_bytes (rules.seen (state_of self.now)) place ≡ Some result.now };

    /// Adds a record and returns its place. One cell changes: a free one takes it, or it is appended.
    fn put(&mut self, item: &Self::Item) -> Result<u32, Refusal>
        ensures gives { PutGives (rules.put (state_of self.old) item.now) (state_of self.old) result (state_of self.new) }
        ensures puts { IfOk result (Puts (rules.seen (state_of self.old)) (rules.seen (state_of self.new))) }
        ensures memory { rules.takes_none (state_of self.old) item.now ≡ true → HadMemory result };

    /// Frees the live cell at a place. Takes no memory.
    fn cut(&mut self, place: u32) -> Result<(), Code>
        ensures gives { CutGives (rules.cut (state_of self.old) place) (state_of self.old) result (state_of self.new) }
        ensures cuts { OnOk result (Cuts (rules.seen (state_of self.old)) (rules.seen (state_of self.new)) place) };

    /// Rewrites the store with its live cells alone, in order. Carries each place in `cursors` to the new place of the
    /// first live cell at or after it, or to the new end.
    fn rewrite(&mut self, cursors: &mut [u32]) -> Result<(), Refusal>
        requires { AllByRecursion (IsPlace (rules.seen (state_of self.old))) cursors.old }
        ensures gives { RewriteGives (rules.rewrite (state_of self.old)) (state_of self.old) result (state_of self.new) }
        ensures rewrites { OnOk result (Rewrites (rules.seen (state_of self.old)) (rules.seen (state_of self.new))) }
        ensures carries { OnOk result (cursors.new ≡ map (carry (rules.seen (state_of self.old)) (rules.seen (state_of self.new))) cursors.old) }
        ensures keeps { OnErr result (cursors.new ≡ cursors.old) };
}
