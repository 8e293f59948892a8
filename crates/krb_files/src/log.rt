//! A log of names and bytes, for proofs only.

ghost use Rattle.std.specs.Prelude.{◌≡◌, ℕ, List, ◌∷◌};
ghost use Rattle.std.specs.Borrow.{ftrue};

use std::marker::Model;

/// Names and bytes, the last first. It takes no memory, and its call does nothing at run time.
#[derive(Drop)]
pub struct Log {
    pub ghost entries: { List (List ℕ × List ℕ) },
}

impl Model for Log {
    ghost also_owns = { λ _. ftrue };
}

impl Log {
    ghost use Rattle.krb_files.specs.Log.{entries_of};

    /// Returns a log, empty if there is none, with one more entry: these bytes, under that name.
    pub fn with(_before: &Option<Log>, _name: &[u8], _bytes: &[u8]) -> Log
        ensures { result.entries ≡ (_name.now, _bytes.now) ∷ entries_of _before.now }
    {
        Log {}
    }
}
