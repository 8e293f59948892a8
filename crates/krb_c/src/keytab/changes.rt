//! Changes to keytabs.

ghost use Rattle.std.specs.Prelude.{◌≡◌, None};
ghost use Rattle.krb_wire.specs.NameOf.{name_of};
ghost use Rattle.krb_c.specs.KeytabLooks.{AddsNamed, ReadsBack, entry_with};

use crate::heap::heap;
use crate::key::may_be;
use crate::keytab::HeldKeytab;
use crate::status::{BAD_KEY, NO_MEMORY};
use crate::text::read_name;
use krb_keytab::NewEntry;
use std::alloc::Global;

/// The numbers of an entry.
#[derive(Clone, Copy)]
pub struct Numbers {
    pub timestamp: u32,
    pub kvno: u32,
    pub enctype: u16,
}

/// Adds an entry of the name in a text, and reports its place. Refused, in this order: a text that is not a name, a key
/// of another length than those of its enctype, what `Keytab::add` refuses.
#[tactic(auto, using(crate::proofs::NameLemmas::unread))]
pub fn add(
    alloc: Global,
    held: &mut HeldKeytab,
    text: &[u8],
    numbers: Numbers,
    key: &[u8],
    place: &mut u32,
) -> u32
    ensures adds { AddsNamed held.old.state (name_of text.now None)
        (entry_with numbers.timestamp numbers.kvno numbers.enctype key.now) result place.old place.new held.new.state }
    ensures reads { result ≡ 0 → ReadsBack held.old.state (name_of text.now None)
        (entry_with numbers.timestamp numbers.kvno numbers.enctype key.now) place.new held.new.state }
{
    let principal = match read_name(alloc, text) {
        Ok(name) => name,
        Err(status) => return status,
    };
    if !may_be(numbers.enctype, key) {
        return BAD_KEY;
    }
    let Ok(key) = Vec::from_slice(heap(alloc), key) else {
        return NO_MEMORY;
    };
    let entry = NewEntry {
        principal,
        timestamp: numbers.timestamp,
        kvno: numbers.kvno,
        enctype: numbers.enctype,
        key,
    };
    entry.fields().numbers_fit();
    held.put(&entry, place)
}
