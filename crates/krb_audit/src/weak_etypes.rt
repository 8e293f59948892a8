//! Which weak encryption types entries have.

ghost use Rattle.std.specs.Prelude.{◌≡◌, ◌∷◌, ◌++◌, [], List};
ghost use Rattle.krb_keytab.specs.Find.{PlacedEntry};
ghost use Rattle.krb_audit.specs.Findings.{weak_among};

use krb_findings::WeakEtypes;
use krb_text::is_weak;

/// Returns those of no entries.
#[tactic(auto, using(crate::proofs::WeakNumbers::none_found))]
pub fn no_weak() -> WeakEtypes
    ensures { result ≡ weak_among [] }
{
    WeakEtypes { found: [false; 27] }
}

/// Adds the enctype of one more entry.
#[tactic(auto, using(crate::proofs::WeakNumbers::weak_below, crate::proofs::WeakNumbers::with_other, crate::proofs::WeakNumbers::with_weak))]
pub fn add_weak(weak: &mut WeakEtypes, etype: u16)
    ensures { (xs : List PlacedEntry) (x : PlacedEntry) → weak.old ≡ weak_among xs → etype ≡ x.1.enctype
        → weak.new ≡ weak_among (xs ++ x ∷ []) }
{
    if is_weak(etype) {
        weak.found[usize::from(etype)] = true;
    }
}
