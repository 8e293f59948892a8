//! Iterating from stop to stop visits all records.

ghost use Rattle.krb_walk.specs.Stops.{WalksBeginWithAll, StopsGiveRecords, StopsEnd};

/// Iterating from stop to stop, from the first place on, visits all records in order: a stop is the first record at or
/// after its place, its `next` is a place after it, and if there is no stop at a record, no record is left.
pub fn stops_go_through_all_records()
    ensures begins { WalksBeginWithAll }
    ensures stops { StopsGiveRecords }
    ensures ends { StopsEnd }
{}
