//! Entries as C sees them, and reading a keytab for C.

ghost use Rattle.std.specs.Prelude.{None};
ghost use Rattle.krb_wire.specs.NameOf.{name_of};
ghost use Rattle.krb_keytab.specs.Store.{entry_at_place};
ghost use Rattle.krb_c.specs.KeytabLooks.{Shows, Finds};

use crate::heap::Heap;
use crate::keytab::HeldKeytab;
use crate::status::{DONE, of_code};
use crate::text::{KrbfBytes, bytes_of, read_name};
use crate::walked::Records;
use krb_keytab::{EntryView, Indexed, read_entry};
use krb_wire::Name;
use std::alloc::Global;

/// An entry: the place of its record, its numbers, and where its realm and its key are.
#[repr(C)]
#[derive(Drop)]
pub struct KrbfEntry {
    pub place: u32,
    pub kvno: u32,
    pub timestamp: u32,
    pub name_type: u32,
    pub enctype: u32,
    pub components: usize,
    pub realm: KrbfBytes,
    pub key: KrbfBytes,
}

/// Returns an entry at `place`, as C sees it.
pub fn shown(place: u32, entry: &EntryView<'_>) -> KrbfEntry
    ensures { Shows result place entry.now }
{
    let name = entry.principal();
    KrbfEntry {
        place,
        kvno: entry.kvno(),
        timestamp: entry.timestamp(),
        name_type: name.name_type(),
        enctype: entry.enctype() as u32,
        components: name.count(),
        realm: bytes_of(name.realm()),
        key: bytes_of(entry.key()),
    }
}

impl Records for Indexed<Heap> {
    ghost use Rattle.krb_keytab.specs.Entry.{EntryParts};
    ghost use Rattle.krb_keytab.specs.Store.{entry_at_place};
    ghost use Rattle.krb_c.specs.KeytabLooks.{Shows};

    type Shown = KrbfEntry;

    ghost Record = { EntryParts };

    ghost record_at = { λ k. entry_at_place k.state };

    ghost Shows = { Shows };

    fn shown_at(&self, place: u32) -> KrbfEntry {
        let Some(entry) = read_entry(self.format(), self.bytes_at(place)) else {
            unreachable!()
        };
        shown(place, &entry)
    }
}

/// Shows the first entry of the name in a text, with this kvno and enctype.
#[tactic(auto, using(crate::proofs::NameLemmas::unread))]
pub fn find(
    alloc: Global,
    held: &HeldKeytab,
    text: &[u8],
    kvno: u32,
    enctype: u16,
    entry: &mut KrbfEntry,
) -> u32
    ensures { Finds held.now.state (name_of text.now None) kvno enctype result entry.old entry.new }
{
    let name = match read_name(alloc, text) {
        Ok(name) => name,
        Err(status) => return status,
    };
    match held.store().find(&name, kvno, enctype) {
        Ok((place, seen)) => {
            *entry = shown(place, &seen);
            DONE
        }
        Err(code) => of_code(code),
    }
}
