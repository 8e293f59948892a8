//! Laws of the definitions that the contracts cite.

ghost use Rattle.krb_ccache.specs.Laws.{IsAlwaysSpelled, IsLongest, IsOnlyOne, IsOpenedAgain, IsAlwaysReadBack, HasOwnSpelling, IsKeptByRewrites, AreRemovedByEvents, IsSetByEvents};

/// Bytes are read in one way only, as one list of credentials and one end, and no longer list of credentials is a
/// prefix of them.
pub fn one_reading()
    ensures spelled { IsAlwaysSpelled }
    ensures longest { IsLongest }
    ensures only { IsOnlyOne }
{}

/// Opening the image of a cache gives that cache again, and no other cache has that image.
#[tactic(auto, using(crate::proofs::Reopening::opened_again))]
pub fn caches_are_opened_again()
    ensures { IsOpenedAgain }
{}

/// A credential whose numbers and lengths fit is read back from its spelling, and no other has that spelling.
pub fn credentials_are_read_back()
    ensures read { IsAlwaysReadBack }
    ensures own { HasOwnSpelling }
{}

/// Each rewrite keeps the live credentials, in order, also in a run of a session over a cache.
#[tactic(auto, using(crate::proofs::Rewrites::rewritten_keeps))]
pub fn rewrites_keep_credentials()
    ensures { IsKeptByRewrites }
{}

/// Removals at places leave the cache that a session's events leave, so what holds for its history holds for them.
#[tactic(auto, using(crate::proofs::Removals::removals_leave))]
pub fn removals_are_events()
    ensures { AreRemovedByEvents }
{}

/// Events of a session, which walks see one by one, set a value too: the addition of its entry, and then the removal
/// of each entry that it replaces. They leave the cache that `set_config` leaves.
#[tactic(auto, using(crate::proofs::Removals::setting_leaves))]
pub fn settings_are_events()
    ensures { IsSetByEvents }
{}
