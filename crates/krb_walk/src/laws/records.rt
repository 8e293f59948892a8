//! Records: each comes exactly if it has a turn. These laws hold of each walk, over one run or over joined runs,
//! rewrites included; only those about places assume that no event rewrites the store.
#![tactic(auto, using(crate::proofs::Fair::walk_fair))]

ghost use Rattle.std.specs.Prelude.{◌≡◌, ◌↔◌, ◌≤◌, ℕ, Option, filter, length, map};
ghost use Rattle.std.specs.List.{AllByRecursion};
ghost use Rattle.krb_walk.specs.Store.{Store};
ghost use Rattle.krb_walk.specs.Ranks.{live_places};
ghost use Rattle.krb_walk.specs.Track.{RecordName, Track, PlacesStay, passes, IsWalk};
ghost use Rattle.krb_walk.specs.Due.{rows_at_event};
ghost use Rattle.krb_walk.specs.Records.{OneRow, HasTurn, IsNamed, passes_record, rows_of};

/// A record has exactly one row iff it has a turn, at which it is alive.
pub fn a_record_comes_once_exactly_if_it_has_a_turn()
    ensures { (first : Store) (start : Option ℕ) (t : Track) (last : Store) (r : RecordName) → IsWalk first start t last
        → OneRow (rows_of r t) ↔ HasTurn r t }
{}

/// A record has at most one turn; so has a place, if no event rewrites the store.
pub fn a_turn_is_unique()
    ensures of_a_record { (first : Store) (start : Option ℕ) (t : Track) (last : Store) (r : RecordName) → IsWalk first start t last
        → length (filter (passes_record r) t) ≤ 1 }
    ensures of_a_place { (first : Store) (start : Option ℕ) (t : Track) (last : Store) (p : ℕ) → IsWalk first start t last → PlacesStay t
        → length (filter (passes p) t) ≤ 1 }
{}

/// Each row is of a record that is alive just before the event, at the place of the row.
pub fn each_row_is_of_a_record()
    ensures { (first : Store) (start : Option ℕ) (t : Track) (last : Store) → IsWalk first start t last
        → AllByRecursion (λ x. AllByRecursion (λ row. IsNamed x row.stood.place) (rows_at_event x)) t }
{}

/// At each event there are as many names as live cells. If no event rewrites the store, each name has the place of its
/// cell.
pub fn names_are_of_the_live_cells()
    ensures as_many { (first : Store) (start : Option ℕ) (t : Track) (last : Store) → IsWalk first start t last
        → AllByRecursion (λ x. length x.names ≡ length (live_places x.before)) t }
    ensures places { (first : Store) (start : Option ℕ) (t : Track) (last : Store) → IsWalk first start t last → PlacesStay t
        → AllByRecursion (λ x. map (λ r. r.place) x.names ≡ live_places x.before) t }
{}
