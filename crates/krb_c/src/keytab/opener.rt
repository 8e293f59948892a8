//! Which entry of a keytab opens a ticket.

ghost use Rattle.std.specs.Prelude.{◌≡◌, ◌==◌, ◌&&◌, None, Some, IsSome, find};
ghost use Rattle.krb_wire.specs.NameOf.{name_of};
ghost use Rattle.krb_wire.specs.Names.{have_same_name};
ghost use Rattle.krb_wire.specs.Reading.{principal_parts};
ghost use Rattle.krb_keytab.specs.Find.{placed_entries};
ghost use Rattle.krb_audit.specs.Newest.{newer};
ghost use Rattle.krb_match.specs.Match.{entry_etype, fits, named, opener, wanted};
ghost use Rattle.krb_c.specs.Held.{keytab_of, Looks};
ghost use Rattle.krb_c.specs.Opener.{OpensNamed, has_fitting, keyed, why_none};

use crate::handle::{KrbfKeytab, with_held};
use crate::heap::Heap;
use crate::keytab::looks::{KrbfEntry, shown};
use crate::status::{DONE, ENCTYPE_NOT_FOUND, of_code};
use crate::text::read_name;
use krb_audit::Stamp;
use krb_keytab::{EntryView, Keytab};
use krb_walk::Code;
use krb_wire::{Principal, same_name};
use std::alloc::Global;

// Returns whether an entry's version fits.
fn fits(asked: Option<u32>, version: u32) -> bool
    ensures { result ≡ fits asked version }
{
    match asked {
        None => true,
        Some(asked) => version == asked || version == asked % 256 || version == 0,
    }
}

// Returns whether an entry has that name and enctype.
fn is_keyed(name: &Principal<Heap>, etype: u32, entry: &EntryView<'_>) -> bool
    ensures { result ≡ (entry.now.enctype == etype && have_same_name (principal_parts name.now) entry.now.principal) }
{
    u32::from(entry.enctype()) == etype && same_name(name, entry.principal())
}

// Returns the newer of two entries, or the only one.
fn newer<'k>(newest: Option<EntryView<'k>>, later: EntryView<'k>) -> EntryView<'k>
    ensures { Some result ≡ newer newest.entry later.entry }
{
    let Some(newest) = newest else {
        return later;
    };
    if Stamp::of(&newest).is_older_than(Stamp::of(&later)) {
        later
    } else {
        newest
    }
}

// Returns the version that is looked for first: that asked for, or the newest of that name and enctype.
#[tactic(auto, using(crate::proofs::Openers::keyed_next))]
fn wanted(keytab: &Keytab<Heap>, name: &Principal<Heap>, etype: u32, asked: Option<u32>) -> u32
    ensures { result ≡ wanted asked (keyed (principal_parts name.now) etype (placed_entries keytab.now.state)) }
{
    if let Some(version) = asked {
        return version;
    }
    let mut newest = None;
    'entries: for (_place, entry) in keytab.entries() {
        if is_keyed(name, etype, &entry) {
            newest = Some(newer(newest, entry));
        }
    }
    newest.map_or(0, |entry| entry.kvno())
}

// Returns the first entry of that name, enctype and version.
#[tactic(auto, using(crate::proofs::Openers::keyed_next))]
fn first_of_version<'k>(
    keytab: &'k Keytab<Heap>,
    name: &Principal<Heap>,
    etype: u32,
    version: u32,
) -> Option<(u32, EntryView<'k>)>
    ensures { result ≡ find (λ x. x.1.version == version) (keyed (principal_parts name.now) etype (placed_entries keytab.now.state)) }
{
    'entries: for (place, entry) in keytab.entries() {
        if is_keyed(name, etype, &entry) && entry.kvno() == version {
            return Some((place, entry));
        }
    }
    None
}

// Returns the first entry of that name and enctype whose version fits.
#[tactic(auto, using(crate::proofs::Openers::keyed_next))]
fn first_fitting<'k>(
    keytab: &'k Keytab<Heap>,
    name: &Principal<Heap>,
    etype: u32,
    asked: Option<u32>,
) -> Option<(u32, EntryView<'k>)>
    ensures { result ≡ find (λ x. fits asked x.1.version) (keyed (principal_parts name.now) etype (placed_entries keytab.now.state)) }
{
    'entries: for (place, entry) in keytab.entries() {
        if is_keyed(name, etype, &entry) && fits(asked, entry.kvno()) {
            return Some((place, entry));
        }
    }
    None
}

// Returns the enctype that entries may have, if it is one.
fn entry_etype(etype: i32) -> Option<u32>
    ensures { result ≡ entry_etype etype }
{
    u32::try_from(etype).ok()
}

// Returns the entry of that name that opens a ticket.
fn opener<'k>(
    keytab: &'k Keytab<Heap>,
    name: &Principal<Heap>,
    asked: Option<u32>,
    etype: i32,
) -> Option<(u32, EntryView<'k>)>
    ensures { result ≡ opener asked (entry_etype etype) (named (principal_parts name.now) (placed_entries keytab.now.state)) }
{
    let etype = entry_etype(etype)?;
    let version = wanted(keytab, name, etype, asked);
    match first_of_version(keytab, name, etype, version) {
        Some(found) => Some(found),
        None => first_fitting(keytab, name, etype, asked),
    }
}

// Returns whether an entry of that name has a version that fits.
fn has_fitting(keytab: &Keytab<Heap>, name: &Principal<Heap>, asked: Option<u32>) -> bool
    ensures { result ≡ has_fitting asked (named (principal_parts name.now) (placed_entries keytab.now.state)) }
{
    'entries: for (_place, entry) in keytab.entries() {
        if same_name(name, entry.principal()) && fits(asked, entry.kvno()) {
            return true;
        }
    }
    false
}

// Returns the status if no entry of that name opens a ticket.
fn why_none(keytab: &Keytab<Heap>, name: &Principal<Heap>, asked: Option<u32>) -> u32
    ensures { result ≡ why_none asked (named (principal_parts name.now) (placed_entries keytab.now.state)) }
{
    if has_fitting(keytab, name, asked) {
        ENCTYPE_NOT_FOUND
    } else if has_fitting(keytab, name, None) {
        of_code(Code::KvnoNotFound)
    } else {
        of_code(Code::NotFound)
    }
}

// Shows the entry that opens a ticket for the server that a text names.
#[tactic(auto, using(crate::proofs::NameLemmas::unread), unfolding(crate::specs::Opener::OpensNamed))]
fn opens(
    alloc: Global,
    keytab: &Keytab<Heap>,
    text: &[u8],
    kvno: u32,
    etype: i32,
    entry: &mut KrbfEntry,
) -> u32
    ensures { OpensNamed keytab.now.state (name_of text.now None) kvno etype result entry.old entry.new }
{
    let name = match read_name(alloc, text) {
        Ok(name) => name,
        Err(status) => return status,
    };
    let asked = if kvno == 0 { None } else { Some(kvno) };
    let Some((place, seen)) = opener(keytab, &name, asked, etype) else {
        return why_none(keytab, &name, asked);
    };
    *entry = shown(place, &seen);
    DONE
}

#[unsafe(no_mangle)]
pub extern "C" fn krbf_kt_opens(
    alloc: Global,
    kt: &mut KrbfKeytab,
    name: &[u8],
    kvno: u32,
    enctype: i32,
    entry: &mut KrbfEntry,
) -> u32
    requires { IsSome (keytab_of kt.old) }
    ensures opens { Looks (keytab_of kt.old) (keytab_of kt.new) (λ k. OpensNamed k (name_of name.now None) kvno enctype result entry.old entry.new) }
{
    with_held!(kt, alloc, held => opens(alloc, held.keytab().store(), name, kvno, enctype, entry))
}
