//! Walks that go on over a rewrite of the store.

ghost use Rattle.std.specs.Prelude.{◌≡◌, ◌↔◌, ◌≤◌, ℕ, List, Option, Some};
ghost use Rattle.krb_walk.specs.Store.{Store, IsSound};
ghost use Rattle.krb_walk.specs.Ranks.{live_places, rank, carry, Rewrites};
ghost use Rattle.krb_walk.specs.Track.{RecordName, Track, IsWalk};
ghost use Rattle.krb_walk.specs.Records.{place_among, EachComesAsDue};

use crate::placed::Placed;

/// A carried cursor has as many live cells before it as before the rewrite.
pub fn a_carried_cursor_keeps_its_rank()
    ensures { (old new : Store) (c : ℕ) → Rewrites old new → rank new (carry old new c) ≡ rank old c }
{}

/// Each record comes as it is due, over any number of rewrites.
#[tactic(auto, using(crate::proofs::ComeLaws::each_comes))]
pub fn each_record_comes_as_due()
    ensures { (first : Store) (start : Option ℕ) (t : Track) (last : Store) → IsWalk first start t last → EachComesAsDue t }
{}

/// A record is ahead of a cursor after a rewrite iff it was ahead of it before.
pub fn a_rewrite_keeps_records_ahead()
    ensures { (r : RecordName) (names : List RecordName) (old new : Store) (c p q : ℕ) → IsSound old → Rewrites old new
        → place_among r names (live_places old) ≡ Some p → place_among r names (live_places new) ≡ Some q
        → (c ≤ p) ↔ (carry old new c ≤ q) }
{}
