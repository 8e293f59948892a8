//! What is behind a handle: a store whose records C sees, and where a walk is in it.

ghost use Rattle.std.specs.Prelude.{◌≡◌, ◌⊎◌, Ok, map, IsSome, IsSomeAnd};
ghost use Rattle.krb_walk.specs.Ranks.{carry};
ghost use Rattle.std.specs.List.{list_all};
ghost use Rattle.krb_walk.specs.Store.{is_place, live_bytes};
ghost use Rattle.krb_c.specs.Walks.{with_cursors, StepsOver};
ghost use Rattle.krb_c.specs.Status.{Adds, Changes, Rewrites};

use crate::status::{AT_END, DONE, of_code, of_refusal};
use krb_walk::{Code, Placed, Stop};
use std::marker::Model;

/// True if each cursor is a place of the store.
pub fn are_places<P: Placed>(store: &P, cursors: &[u32]) -> bool
    ensures { result ≡ list_all (is_place (P.rules.seen (P.state_of store.now))) cursors.now }
{
    cursors.iter().all(|cursor| store.is_place(*cursor))
}

/// A store whose records C sees.
pub trait Records: Placed {
    ghost use Rattle.std.specs.Prelude.{ℕ, Option};

    /// A record as C sees it.
    type Shown: Drop;

    /// A record as contracts see it.
    ghost Record: { Type 0 };

    /// The record at a place.
    ghost record_at: { Self → ℕ → Option Record };

    /// What C sees is the record at a place.
    ghost Shows: { Self.Shown → ℕ → Record → Type 0 };

    /// Returns the record of the live cell at `place`. Reads no other record.
    fn shown_at(&self, place: u32) -> Self::Shown
        requires { IsSome (live_bytes (Self.rules.seen (Self.state_of self.now)) place) }
        ensures { IsSomeAnd (record_at self.now place) (Shows result place) };
}

/// A store in memory, and where a walk is in it, so that its next step need not search for its place. Contracts see the
/// store.
#[derive(Drop)]
pub struct Walked<S: Records> {
    pub(crate) store: S,
    // The place of the record last given to a walk.
    pub(crate) given: Option<u32>,
    // The place after it. That record may have been removed since.
    pub(crate) next: Option<u32>,
}

impl<S: Records> Model for Walked<S> {
    ghost use Rattle.krb_c.specs.Walks.{AreKnown};

    ghost Value = { S };

    ghost view = { λ w. w.store };

    ghost invariant = { λ w. AreKnown (S.rules.seen (S.state_of w.store)) w.given w.next };
}

impl<S: Records> Walked<S> {
    /// Returns a store, with no place known.
    pub fn of(store: S) -> Walked<S>
        ensures { result ≡ store }
    {
        Walked {
            store,
            given: None,
            next: None,
        }
    }

    /// Returns the store.
    pub fn store(&self) -> &S
        ensures { result.now ≡ self.now }
    {
        &self.store
    }

    /// Shows the first record at or after the cursor, and moves the cursor past it.
    pub fn step(&mut self, cursor: &mut u32, shown: &mut S::Shown) -> u32
        ensures same { self.new ≡ self.old }
        ensures steps { StepsOver (S.record_at self.old) S.Shows (S.rules.seen (S.state_of self.old))
            result cursor.old cursor.new shown.old shown.new }
    {
        if self.next != Some(*cursor) && !self.store.is_place(*cursor) {
            return of_code(Code::NotAPlace);
        }
        let _sound = self.store.first();
        match self.store.stop_at(*cursor) {
            Stop::Live { place, next } => {
                *shown = self.store.shown_at(place);
                *cursor = next;
                self.given = Some(place);
                self.next = Some(next);
                DONE
            }
            Stop::End { next: _ } => AT_END,
            Stop::Fault(_) => of_code(Code::Damaged),
        }
    }

    /// Adds a record, and reports its place. Places stay valid.
    #[tactic(auto, using(crate::proofs::StoreLemmas::kept_by_put, crate::proofs::StoreLemmas::refused))]
    pub fn put(&mut self, item: &S::Item, place: &mut u32) -> u32
        ensures adds { Adds (S.rules.put (S.state_of self.old) item.now) (S.state_of self.old)
            result place.old place.new (S.state_of self.new) }
        ensures done { result ≡ 0 → S.rules.put (S.state_of self.old) item.now ≡ Ok (place.new, S.state_of self.new) }
    {
        self.given = None;
        match self.store.put(item) {
            Ok(put) => {
                *place = put;
                DONE
            }
            Err(refusal) => of_refusal(refusal),
        }
    }

    /// Removes the record at `place`. Places stay valid.
    #[tactic(auto, using(crate::proofs::StoreLemmas::kept_by_cut))]
    pub fn remove(&mut self, place: u32) -> u32
        ensures { Changes (S.rules.cut (S.state_of self.old) place) (S.state_of self.old) result (S.state_of self.new) }
    {
        self.given = None;
        match self.store.cut(place) {
            Ok(()) => DONE,
            Err(code) => of_code(code),
        }
    }

    /// Rewrites the store, and moves the cursors along. Each cursor has to be a place.
    #[tactic(auto, using(crate::proofs::StoreLemmas::places_all))]
    pub fn rewrite(&mut self, cursors: &mut [u32]) -> u32
        ensures rewrites { Rewrites (with_cursors (S.rules.seen (S.state_of self.old)) cursors.old
            (S.rules.rewrite (S.state_of self.old))) (S.state_of self.old) result (S.state_of self.new) }
        ensures done { result ≡ 0 → S.rules.rewrite (S.state_of self.old) ≡ Ok (S.state_of self.new) }
        ensures carries { result ≡ 0 → cursors.new
            ≡ map (carry (S.rules.seen (S.state_of self.old)) (S.rules.seen (S.state_of self.new))) cursors.old }
        ensures left { (result ≡ 0) ⊎ (cursors.new ≡ cursors.old) }
    {
        if !are_places(&self.store, cursors) {
            return of_code(Code::NotAPlace);
        }
        self.given = None;
        self.next = None;
        match self.store.rewrite(cursors) {
            Ok(()) => DONE,
            Err(refusal) => of_refusal(refusal),
        }
    }
}
