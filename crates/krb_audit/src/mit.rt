//! Where MIT's programs stop reading a keytab.

ghost use Rattle.std.specs.Prelude.{◌≡◌, length, List, nat_le, ℕ};
ghost use Rattle.std.specs.List.{list_any};
ghost use Rattle.krb_audit.specs.Findings.{ends_mit, hidden_from, hides_added, is_out};

use krb_keytab::{EntryView, Keytab};
use krb_wire::{Components, Name};
use std::alloc::Allocator;

/// The largest count or length with which MIT's programs read an entry.
const MOST: usize = 32_767;

// Returns whether MIT's programs read no entry with such a count or length.
fn is_out(count: usize) -> bool
    ensures { result ≡ is_out count }
{
    count == 0 || count > MOST
}

fn has_such<A: Allocator>(components: Components<'_, A>) -> bool
    ensures { result ≡ list_any (λ (c : List ℕ). is_out (length c)) components.entry }
{
    for component in components {
        if is_out(component.len()) {
            return true;
        }
    }
    false
}

/// Returns whether MIT's programs silently stop before an entry.
pub fn ends_mit(entry: &EntryView<'_>) -> bool
    ensures { result ≡ ends_mit entry.now }
{
    let name = entry.principal();
    is_out(name.count())
        || is_out(name.realm().len())
        || has_such(name.components())
        || is_out(entry.key().len())
}

// Returns the place of the first entry before which MIT's programs silently stop: they see none from there on.
fn hidden_from<A: Allocator>(keytab: &Keytab<A>) -> Option<u32>
    ensures { result ≡ hidden_from keytab.now.state }
{
    'entries: for (place, entry) in keytab.entries() {
        if ends_mit(&entry) {
            return Some(place);
        }
    }
    None
}

// Returns whether one of `places` is at or after `from`.
fn reach(places: &[u32], from: u32) -> bool
    ensures { result ≡ list_any (λ p. nat_le from p) places.now }
{
    places.iter().any(|place| from <= *place)
}

/// Returns the place from which on MIT's programs see no entry, if an entry was added there or later.
pub fn hides_added<A: Allocator>(keytab: &Keytab<A>, added: &[u32]) -> Option<u32>
    ensures { result ≡ hides_added keytab.now.state added.now }
{
    let from = hidden_from(keytab)?;
    if reach(added, from) { Some(from) } else { None }
}
