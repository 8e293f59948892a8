//! The next key of a name.

ghost use Rattle.std.specs.Prelude.{◌≡◌, Ok, Some, IfOk, OnOk};
ghost use Rattle.krb_keytab.specs.Form.{read_back};
ghost use Rattle.krb_keytab.specs.Store.{entry_at_place};
ghost use Rattle.rotate_keys.specs.Rotation.{places_before, rotation, without};

use krb_keytab::{Keytab, NewEntry};
use krb_walk::{Code, Refusal};
use krb_wire::{Name, NoMemory, same_name};
use std::alloc::Allocator;

// The places of a name's entries of versions before that one.
fn places_before<N: Name, A: Allocator>(
    alloc: A,
    keytab: &Keytab<A>,
    name: &N,
    kvno: u32,
) -> Result<Vec<u32, A>, NoMemory>
    ensures { IfOk result (λ places. places.items ≡ places_before (N.parts name.now) kvno keytab.now.state) }
{
    let mut places = Vec::new(alloc);
    'entries: for (place, entry) in keytab.entries() {
        if entry.kvno() < kvno && same_name(name, entry.principal()) {
            places.push(place)?;
        }
    }
    Ok(places)
}

// Removes the records at these places, one after the other.
fn remove_all<A: Allocator>(keytab: &mut Keytab<A>, places: &[u32]) -> Result<(), Code>
    ensures { OnOk result (without places.now (Ok keytab.old.state) ≡ Ok keytab.new.state) }
{
    'places: for place in places {
        keytab.remove_at(*place)?;
    }
    Ok(())
}

/// Adds an entry, after the entries of its name with versions before `oldest` were removed. The answer is its place.
pub fn rotate<A: Allocator + Copy>(
    alloc: A,
    keytab: &mut Keytab<A>,
    next: &NewEntry<A>,
    oldest: u32,
) -> Result<u32, Refusal>
    ensures rotated { IfOk result (λ place. rotation next.now oldest keytab.old.state ≡ Ok (place, keytab.new.state)) }
    ensures read { IfOk result (λ place. entry_at_place keytab.new.state place
        ≡ Some (read_back keytab.new.state.format next.now)) }
{
    let places = places_before(alloc, keytab, &next.principal, oldest)?;
    remove_all(keytab, &places)?;
    keytab.add(next)
}
