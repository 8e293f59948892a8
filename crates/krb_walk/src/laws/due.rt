//! What a walk is given is what is due to it.

ghost use Rattle.std.specs.Prelude.{◌≡◌, ℕ, List, slice_get, Option};
ghost use Rattle.krb_walk.specs.declared.event.Event.{Event};
ghost use Rattle.krb_walk.specs.Store.{Store};
ghost use Rattle.krb_walk.specs.Events.{SessionState};
ghost use Rattle.krb_walk.specs.History.{IsRun, history, last_store, given};
ghost use Rattle.krb_walk.specs.Track.{Track, PlacesStay, track_of, IsWalk};
ghost use Rattle.krb_walk.specs.Due.{given_over, due_over, due_by_steps};
ghost use Rattle.krb_walk.specs.Fair.{IsFair};

use crate::placed::Placed;

/// A walk is given exactly what is due to it, step by step: each step gives the live cells that its cursor passes.
#[tactic(auto, using(crate::proofs::Fair::gives_due))]
pub fn given_is_due<P: Placed>()
    ensures { (s : SessionState P.State) (events : List (Event P.Item)) (w : ℕ) → IsRun P.rules s events
        → given w (history P.rules s events) ≡ due_by_steps (track_of P.rules s events w) }
{}

/// If no event rewrites the store, a walk is given, for each place of the last store in order, the record that was
/// there just before the event at which the walk passed it.
#[tactic(auto, using(crate::proofs::Fair::gives_due_at_places))]
pub fn given_is_due_at_places<P: Placed>()
    ensures { (s : SessionState P.State) (events : List (Event P.Item)) (w : ℕ) → IsRun P.rules s events → PlacesStay (track_of P.rules s events w)
        → given w (history P.rules s events) ≡ due_over (track_of P.rules s events w) (last_store P.rules s events) }
{}

/// The rows along a walk's track are those that the replies give to it.
#[tactic(auto, using(crate::proofs::Fair::track_replies))]
pub fn tracks_have_the_replies<P: Placed>()
    ensures { (s : SessionState P.State) (events : List (Event P.Item)) (w : ℕ)
        → given_over (track_of P.rules s events w) ≡ given w (history P.rules s events) }
{}

/// The track of a walk over a run satisfies `IsWalk`.
#[tactic(auto, using(crate::proofs::Joins::history_walks))]
pub fn runs_are_walks<P: Placed>()
    ensures { (s : SessionState P.State) (events : List (Event P.Item)) (w : ℕ) → IsRun P.rules s events
        → IsWalk (P.rules.seen s.store) (slice_get s.cursors w) (track_of P.rules s events w) (last_store P.rules s events) }
{}

/// Every walk satisfies `IsFair`, over one run or over any number of joined runs.
#[tactic(auto, using(crate::proofs::Fair::walk_fair))]
pub fn walks_are_fair()
    ensures { (first : Store) (start : Option ℕ) (t : Track) (last : Store) → IsWalk first start t last → IsFair t last }
{}
