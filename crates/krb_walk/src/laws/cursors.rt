//! Cursors and places.

ghost use Rattle.std.specs.Prelude.{◌≡◌, false, ◌≢◌, ◌⊎◌, ℕ, ◌≤◌, ◌<◌, IsSomeAnd, List, Some, slice_get};
ghost use Rattle.krb_walk.specs.declared.event.Event.{Event};
ghost use Rattle.krb_walk.specs.declared.event.Event.TheVariants.{Step, Put};
ghost use Rattle.krb_walk.specs.Store.{IsPlace, end_of, size_at};
ghost use Rattle.krb_walk.specs.ReplyContent.{Placed, is_rewritten};
ghost use Rattle.krb_walk.specs.Events.{SessionState, after, reply_to};
ghost use Rattle.krb_walk.specs.History.{IsReady, IsLawful, IsRun, AllLawful, AllPlain, moment, history, state_after, last_store};
ghost use Rattle.krb_walk.specs.Track.{AnswersStep};

use crate::placed::Placed;

/// Each cursor is a place, after any events.
#[tactic(auto, using(crate::proofs::Effects::ready_to_last))]
pub fn cursors_are_places<P: Placed>()
    ensures { (s : SessionState P.State) (events : List (Event P.Item)) → IsRun P.rules s events → IsReady P.rules (state_after P.rules s events) }
{}

/// A cursor never goes back, if no event rewrites the store.
#[tactic(auto, using(crate::proofs::Steps::never_back))]
pub fn cursors_never_go_back<P: Placed>()
    ensures { (s : SessionState P.State) (events : List (Event P.Item)) (w c : ℕ) → IsRun P.rules s events → AllPlain (history P.rules s events)
        → slice_get s.cursors w ≡ Some c
        → IsSomeAnd (slice_get (state_after P.rules s events).cursors w) (λ d. c ≤ d) }
{}

/// Only a step of its walk, or an accepted rewrite, moves a cursor.
#[tactic(auto, using(crate::proofs::Steps::only_steps))]
pub fn only_its_steps_move_a_cursor<P: Placed>()
    ensures { (s : SessionState P.State) (event : Event P.Item) (w c : ℕ) → slice_get s.cursors w ≡ Some c
        → event ≢ Step w → is_rewritten (reply_to P.rules s event) ≡ false
        → slice_get (after P.rules s event).cursors w ≡ Some c }
{}

/// A step gives the next live cell, and the cursor goes to the place after it. If there is none, the reply is the fault
/// if there is one, or else the end, and the cursor goes to the end place.
#[tactic(auto, using(crate::proofs::Steps::step_answered))]
pub fn steps_are_answered<P: Placed>()
    ensures { (s : SessionState P.State) (w c : ℕ) → slice_get s.cursors w ≡ Some c
        → IsSomeAnd (slice_get (after P.rules s (Step w)).cursors w) (AnswersStep (P.rules.seen s.store) w c (reply_to P.rules s (Step w))) }
{}

/// A place stays a place, and its cell keeps its size, if no event rewrites the store.
#[tactic(auto, using(crate::proofs::Steps::places_kept, crate::proofs::Steps::sizes_kept))]
pub fn places_stay<P: Placed>()
    ensures places { (s : SessionState P.State) (events : List (Event P.Item)) (p : ℕ) → AllPlain (history P.rules s events) → AllLawful P.rules (history P.rules s events)
        → IsPlace (P.rules.seen s.store) p → IsPlace (last_store P.rules s events) p }
    ensures sizes { (s : SessionState P.State) (events : List (Event P.Item)) (p size : ℕ) → AllPlain (history P.rules s events) → AllLawful P.rules (history P.rules s events)
        → size_at (P.rules.seen s.store) p ≡ Some size → size_at (last_store P.rules s events) p ≡ Some size }
{}

/// A record whose addition moves the end place is at the old end place.
#[tactic(auto, using(crate::proofs::Steps::put_place))]
pub fn what_is_appended_is_at_the_old_end<P: Placed>()
    ensures { (s : SessionState P.State) (item : P.Item) (p : ℕ) → IsLawful P.rules (moment P.rules s (Put item))
        → reply_to P.rules s (Put item) ≡ Placed p
        → (end_of (P.rules.seen (after P.rules s (Put item)).store) ≡ end_of (P.rules.seen s.store))
        ⊎ ((p ≡ end_of (P.rules.seen s.store)) × (end_of (P.rules.seen s.store) < end_of (P.rules.seen (after P.rules s (Put item)).store))) }
{}
