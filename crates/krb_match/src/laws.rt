//! Laws of the definitions that the contracts cite.

ghost use Rattle.krb_match.specs.Laws.{OpensAsFound, OpensWhereOneFits};

/// An entry opens a ticket iff one has its name and its enctype, and a version that fits; and it is the one that a look-up
/// finds, if that finds one.
#[tactic(auto, using(crate::proofs::LawLemmas::one_fits, crate::proofs::LawLemmas::found_opens))]
pub fn tickets_are_opened()
    ensures fits { OpensWhereOneFits }
    ensures found { OpensAsFound }
{}
