//! Laws of the definitions that the contracts cite.

ghost use Rattle.krb_copy.specs.Laws.{AllStay, AreHistories, AreMirrored, ChangesAreReported, GoesByItsEntries, HasEachAsked, NoDifference, NothingElse, OthersStay, SecondDoesNothing};

/// After a run in which no entry clashes, the keytab has each entry asked for, with its key, and a second run does
/// nothing.
#[tactic(auto, using(crate::proofs::LawRuns::has_each))]
pub fn entries_asked_for_are_there()
    ensures there { HasEachAsked }
    ensures second { SecondDoesNothing }
{}

/// An entry stays where it is if none asked for has its name, kvno and enctype, and in any case if none is replaced.
#[tactic(auto, using(crate::proofs::LawRuns::others_stay, crate::proofs::LawRuns::all_stay))]
pub fn others_stay()
    ensures others { OthersStay }
    ensures all { AllStay }
{}

/// A run is the history of its removals and additions, and goes by the entries that its keytab has by then. One that
/// reports nothing has changed nothing.
#[tactic(auto, using(crate::proofs::LawRuns::are_histories, crate::proofs::LawRuns::changes_are_reported, crate::proofs::Gone::goes_by_its_entries))]
pub fn runs_are_histories()
    ensures history { AreHistories }
    ensures entries { GoesByItsEntries }
    ensures reported { ChangesAreReported }
{}

/// After a run the keytab has no entry but those that it had before and those asked for.
#[tactic(auto, using(crate::proofs::Gone::nothing_else))]
pub fn nothing_else_is_there()
    ensures { NothingElse }
{}

/// Two keytabs have the same keys iff copying each into the other reports nothing.
pub fn same_keys_copy_nothing()
    ensures { NoDifference }
{}

/// What differs the other way round is the same, with the sides swapped, in another order.
#[tactic(auto, using(crate::proofs::Differences::are_mirrored))]
pub fn differences_are_mirrored()
    ensures { AreMirrored }
{}
