//! Joined runs: a walk continues in the next run over the same store.

ghost use Rattle.std.specs.Prelude.{◌≡◌, ℕ, suc, ◌++◌, List, Option, length};
ghost use Rattle.krb_walk.specs.declared.event.Event.{Event};
ghost use Rattle.krb_walk.specs.Store.{Store};
ghost use Rattle.krb_walk.specs.Events.{SessionState};
ghost use Rattle.krb_walk.specs.History.{history, last_store, given, given_from};
ghost use Rattle.krb_walk.specs.Track.{Track, IsWalk};
ghost use Rattle.krb_walk.specs.Due.{due_by_steps};
ghost use Rattle.krb_walk.specs.Fair.{IsFair};
ghost use Rattle.krb_walk.specs.Joins.{Next, Join, joined, track_then};

use crate::placed::Placed;

/// The track of a walk, extended over the next run in which the walk exists already or is resumed, is again that of one
/// walk. So any number of runs join.
#[tactic(auto, using(crate::proofs::Joins::walk_goes_on))]
pub fn walks_go_on<Q: Placed>()
    ensures { (first : Store) (start : Option ℕ) (t : Track) (last : Store) (z : SessionState Q.State) (events : List (Event Q.Item)) (v c : ℕ)
        → IsWalk first start t last → Next first start t last Q.rules z events v c
        → IsWalk first start (track_then first t Q.rules v c (history Q.rules z events)) (last_store Q.rules z events) }
{}

/// The rows of a walk in one run, followed by those of the walk that continues it in the next, are what is due to one
/// walk over both.
#[tactic(auto, using(crate::proofs::Fair::joined_gives))]
pub fn joined_runs_give_what_is_due<P: Placed, Q: Placed>()
    ensures { (s : SessionState P.State) (events : List (Event P.Item)) (w : ℕ) (z : SessionState Q.State) (next : List (Event Q.Item)) (v c : ℕ)
        → Join P.rules s events w Q.rules z next v c
        → given w (history P.rules s events) ++ given_from (suc (length (history P.rules s events))) v (history Q.rules z next)
        ≡ due_by_steps (joined P.rules s events w Q.rules z next v c) }
{}

/// A walk over two joined runs satisfies `IsFair`, as over one.
pub fn joined_runs_are_fair<P: Placed, Q: Placed>()
    ensures { (s : SessionState P.State) (events : List (Event P.Item)) (w : ℕ) (z : SessionState Q.State) (next : List (Event Q.Item)) (v c : ℕ)
        → Join P.rules s events w Q.rules z next v c
        → IsFair (joined P.rules s events w Q.rules z next v c) (last_store Q.rules z next) }
{}
