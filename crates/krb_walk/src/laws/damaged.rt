//! Stores with a fault.

ghost use Rattle.std.specs.Prelude.{◌≡◌, List, Some};
ghost use Rattle.krb_walk.specs.declared.event.Event.{Event};
ghost use Rattle.krb_walk.specs.declared.fault.FaultKind.{FaultKind};
ghost use Rattle.krb_walk.specs.Events.{SessionState};
ghost use Rattle.krb_walk.specs.History.{IsRun};
ghost use Rattle.krb_walk.specs.Damage.{RefusesChanges};

use crate::placed::Placed;

/// A store with a fault refuses all additions, removals and rewrites, and stays as it is.
#[tactic(auto, using(crate::proofs::Runs::damaged_refuses))]
pub fn damaged_stores_refuse_changes<P: Placed>()
    ensures { (s : SessionState P.State) (events : List (Event P.Item)) (kind : FaultKind) → IsRun P.rules s events
        → (P.rules.seen s.store).fault ≡ Some kind → RefusesChanges P.rules s events }
{}
