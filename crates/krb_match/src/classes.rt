//! The first entry of each name, version and enctype, by which most tickets are opened.

ghost use Rattle.std.specs.Prelude.{◌≡◌, ◌∷◌, ◌++◌, [], ℕ, List, OnOk, IfOk, Some, map, option_map, if◌then◌else◌};
ghost use Rattle.std.specs.Option.{option_or};
ghost use Rattle.std.specs.Vec.{vec_items};
ghost use Rattle.krb_wire.specs.Spelling.{Parts};
ghost use Rattle.krb_keytab.specs.Find.{PlacedEntry, placed_entries};
ghost use Rattle.krb_match.specs.declared.judgement.Judgement.TheVariants.{Opens};
ghost use Rattle.krb_match.specs.Match.{judged_among, named};
ghost use Rattle.krb_match.specs.Names.{entry_key, entry_text, name_key};
ghost use Rattle.krb_match.specs.Table.{AreKeys, ArePlaced, ClassKey, placed_in, same_class};

use crate::keys::{Keys, asked_version, entry_etype};
use crate::names::text_of;
use krb_ccache::TicketEncryption;
use krb_keytab::{EntryView, Keytab};
use krb_names::hash_of;
use krb_wire::NoMemory;
use std::alloc::Allocator;
use std::collections::BTreeMap;
use std::marker::Model;

/// The hash of a name's key, a version and an enctype.
pub type Class = (u64, u32, u32);

/// The place and the key of the name of the first entry of each class.
pub type Places<'k, A> = BTreeMap<Class, (u32, &'k [u8]), A>;

/// The entries of a keytab, with the first one of each name, version and enctype.
#[derive(Drop)]
pub struct Classes<'k, A: Allocator> {
    keytab: &'k Keytab<A>,
    keys: &'k [Vec<u8, A>],
    places: Places<'k, A>,
}

impl<'k, A: Allocator> Model for Classes<'k, A> {
    ghost use Rattle.std.specs.Prelude.{◌≡◌, map};
    ghost use Rattle.std.specs.Vec.{vec_items};
    ghost use Rattle.krb_keytab.specs.Find.{placed_entries};
    ghost use Rattle.krb_keytab.specs.Store.{KeytabState};
    ghost use Rattle.krb_match.specs.Names.{entry_key};
    ghost use Rattle.krb_match.specs.Table.{ArePlaced};

    ghost Value = { KeytabState };

    ghost view = { λ c. c.keytab.now.state };

    ghost invariant = { λ c. (map vec_items c.keys.now ≡ map entry_key (placed_entries c.keytab.now.state))
        × ArePlaced (placed_entries c.keytab.now.state) c.places };
}

// Adds an entry of a class, unless one was there.
fn add<'k, A: Allocator + Copy>(
    places: &mut Places<'k, A>,
    class: Class,
    place: u32,
    key: &'k [u8],
) -> Result<(), NoMemory>
    ensures { OnOk result ((k : ClassKey) → placed_in places.new k
        ≡ (if same_class class k then option_or (placed_in places.old class) (Some (place, key.now)) else placed_in places.old k)) }
{
    if let Some(first) = places.insert(class, (place, key))? {
        let _ = places.insert(class, first)?;
    }
    Ok(())
}

fn first_in<'k, A: Allocator>(places: &Places<'k, A>, class: Class) -> Option<(u32, &'k [u8])>
    ensures { option_map (λ v. (v.0, v.1.now)) result ≡ placed_in places.now class }
{
    places.get(&class).copied()
}

// Adds the next entry, whose name has that key.
fn note<'k, A: Allocator + Copy>(
    places: &mut Places<'k, A>,
    place: u32,
    entry: &EntryView<'_>,
    key: &'k [u8],
) -> Result<(), NoMemory>
    ensures { (before : List PlacedEntry) → key.now ≡ entry_key (place, entry.now) → ArePlaced before places.old
        → OnOk result (ArePlaced (before ++ (place, entry.now) ∷ []) places.new) }
{
    let class = (hash_of(key), entry.kvno(), u32::from(entry.enctype()));
    add(places, class, place, key)
}

// Returns the places of all entries, whose names have those keys.
fn places_of<'k, A: Allocator + Copy>(
    alloc: A,
    keytab: &Keytab<A>,
    keys: &'k [Vec<u8, A>],
) -> Result<Places<'k, A>, NoMemory>
    requires { map vec_items keys.now ≡ map entry_key (placed_entries keytab.now.state) }
    ensures { IfOk result (ArePlaced (placed_entries keytab.now.state)) }
{
    let mut places = BTreeMap::new(alloc);
    let mut rest = keys;
    'entries: for (place, entry) in keytab.entries() {
        let [key, others @ ..] = rest else {
            return Ok(places);
        };
        note(&mut places, place, &entry, key)?;
        rest = others;
    }
    Ok(places)
}

impl<'k, A: Allocator + Copy> Classes<'k, A> {
    /// Returns those of a keytab, by the keys of its entries' names. Takes time n log n in its bytes.
    pub fn of(
        alloc: A,
        keytab: &'k Keytab<A>,
        keys: &'k [Vec<u8, A>],
    ) -> Result<Classes<'k, A>, NoMemory>
        requires { map vec_items keys.now ≡ map entry_key (placed_entries keytab.now.state) }
        ensures { IfOk result (λ c. c ≡ keytab.now.state) }
    {
        let places = places_of(alloc, keytab, keys)?;
        Ok(Classes {
            keytab,
            keys,
            places,
        })
    }

    /// Returns the place of the entry that opens a ticket under the name with that key, if it has the ticket's own version
    /// and enctype. Takes log n comparisons.
    pub fn opener(&self, encryption: TicketEncryption, key: &[u8]) -> Option<u32>
        ensures { (p : Parts) (place : ℕ) → key.now ≡ name_key p → result ≡ Some place
            → judged_among encryption (named p (placed_entries self.now)) ≡ Opens place }
    {
        let kvno = asked_version(encryption.kvno)?;
        let etype = entry_etype(encryption)?;
        let (place, name) = first_in(&self.places, (hash_of(key), kvno, etype))?;
        if name != key {
            return None;
        }
        Some(place)
    }

    /// Returns them by all that tickets ask for. Takes time n log n in their bytes.
    pub fn all(&self, alloc: A) -> Result<Keys<'k, A>, NoMemory>
        ensures { IfOk result (AreKeys (placed_entries self.now)) }
    {
        Keys::of(alloc, self.keytab, self.keys)
    }

    /// Returns the name of the entry with a number as it is printed, or nothing if there is none.
    pub fn entry_text(&self, number: usize) -> &[u8]
        ensures { result.now ≡ entry_text self.now number }
    {
        match self.keys.get(number) {
            Some(key) => text_of(key),
            None => &[],
        }
    }
}
