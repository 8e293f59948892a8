//! The entries of a keytab, by what tickets ask for.

ghost use Rattle.std.specs.Prelude.{◌≡◌, ◌∷◌, ◌++◌, [], List, OnOk, IfOk, map, true, option_map, filter, ◌==◌};
ghost use Rattle.std.specs.Vec.{vec_items};
ghost use Rattle.krb_wire.specs.Spelling.{Parts};
ghost use Rattle.krb_keytab.specs.Find.{PlacedEntry, placed_entries};
ghost use Rattle.krb_names.specs.Set.{is_among};
ghost use Rattle.krb_match.specs.Match.{asked_version, entry_etype, has_name, judged_among, named, opener, wanted};
ghost use Rattle.krb_match.specs.Names.{entry_key, name_key};
ghost use Rattle.krb_match.specs.Table.{AreKeys, AreNoted, AreUnited, HasNumber, IsNumbered, first_of, fitting_of, versions};

use crate::fitting::Fitting;
use crate::group::{Groups, firsts, newest, note};
use crate::judgement::Judgement;
use crate::names::write_key;
use krb_ccache::TicketEncryption;
use krb_keytab::{EntryView, Keytab};
use krb_names::NameSet;
use krb_wire::NoMemory;
use std::alloc::Allocator;
use std::collections::BTreeMap;

/// The entries of a keytab, by what tickets ask for.
#[derive(Drop)]
pub struct Keys<'k, A: Allocator> {
    // The number of a name is its place here.
    names: NameSet<'k, A>,
    groups: Groups<A>,
}

/// Returns the version that a ticket asks for, unless that is left out or 0.
pub fn asked_version(kvno: Option<u32>) -> Option<u32>
    ensures { result ≡ asked_version kvno }
{
    match kvno {
        Some(0) => None,
        kvno => kvno,
    }
}

/// Returns the enctype of entries that a ticket asks for, if it can be one.
pub fn entry_etype(encryption: TicketEncryption) -> Option<u32>
    ensures { result ≡ entry_etype encryption.etype }
{
    u32::try_from(encryption.etype).ok()
}

// Returns the versions that fit.
fn versions(asked: Option<u32>) -> (Option<u32>, Option<u32>, Option<u32>)
    ensures { result ≡ versions asked }
{
    match asked {
        None => (None, None, None),
        Some(version) => (Some(version), Some(version % 256), Some(0)),
    }
}

/// Returns the number of the name with that key. Takes log n comparisons.
pub fn number_of<A: Allocator>(names: &NameSet<'_, A>, key: &[u8]) -> Option<usize>
    ensures { (p : Parts) → key.now ≡ name_key p → IsNumbered names.now p result }
{
    names.place(key)
}

impl<'k, A: Allocator + Copy> Keys<'k, A> {
    // Adds the next entry.
    fn consider(
        &mut self,
        alloc: A,
        place: u32,
        entry: &EntryView<'_>,
        scratch: &mut Vec<u8, A>,
    ) -> Result<(), NoMemory>
        ensures names { OnOk result (self.new.names ≡ self.old.names) }
        ensures noted { (before : List PlacedEntry) → is_among self.old.names (entry_key (place, entry.now)) ≡ true
            → AreNoted self.old.names before self.old.groups
            → OnOk result (AreNoted self.new.names (before ++ (place, entry.now) ∷ []) self.new.groups) }
    {
        write_key(entry.principal(), scratch)?;
        match number_of(&self.names, scratch) {
            Some(number) => note(&mut self.groups, alloc, number, place, entry),
            None => Ok(()),
        }
    }

    /// Returns those of a keytab, by the keys of its entries' names. Takes time n log n in its bytes.
    pub fn of<B: Allocator>(
        alloc: A,
        keytab: &Keytab<B>,
        names: &'k [Vec<u8, A>],
    ) -> Result<Keys<'k, A>, NoMemory>
        requires { map vec_items names.now ≡ map entry_key (placed_entries keytab.now.state) }
        ensures { IfOk result (AreKeys (placed_entries keytab.now.state)) }
    {
        let mut keys = Keys {
            names: NameSet::of(alloc, names)?,
            groups: BTreeMap::new(alloc),
        };
        let mut scratch = Vec::new(alloc);
        'entries: for (place, entry) in keytab.entries() {
            keys.consider(alloc, place, &entry, &mut scratch)?;
        }
        Ok(keys)
    }

    // Returns the entries of a name that fit, of an enctype unless that is left out.
    fn fitting(&self, number: usize, asked: Option<u32>, etype: Option<u32>) -> Fitting<'_>
        ensures { (xs : List PlacedEntry) (p : Parts) → AreKeys xs self.now → HasNumber self.now p number
            → AreUnited (fitting_of asked etype (named p xs)) result }
    {
        let (one, two, three) = versions(asked);
        Fitting {
            one: firsts(&self.groups, (number, one, etype)),
            two: firsts(&self.groups, (number, two, etype)),
            three: firsts(&self.groups, (number, three, etype)),
        }
    }

    // Returns the version of a name and an enctype that is looked for first.
    fn wanted(&self, number: usize, asked: Option<u32>, etype: u32) -> u32
        ensures { (xs : List PlacedEntry) (p : Parts) → AreKeys xs self.now → HasNumber self.now p number
            → result ≡ wanted asked (filter (λ x. x.1.enctype == etype) (named p xs)) }
    {
        match asked {
            Some(version) => version,
            None => newest(&self.groups, (number, None, Some(etype))),
        }
    }

    // Returns the place and the enctype of the entry of a name that opens a ticket.
    fn opener(&self, number: usize, asked: Option<u32>, etype: Option<u32>) -> Option<(u32, u32)>
        ensures { (xs : List PlacedEntry) (p : Parts) → AreKeys xs self.now → HasNumber self.now p number
            → result ≡ option_map first_of (opener asked etype (named p xs)) }
    {
        let etype = etype?;
        let wanted = self.wanted(number, asked, etype);
        match firsts(&self.groups, (number, Some(wanted), Some(etype))).first() {
            Some(first) => Some(*first),
            None => self.fitting(number, asked, Some(etype)).next(&[]),
        }
    }

    // Returns what is said of a ticket of the name with that number.
    fn judge_number(&self, number: usize, encryption: TicketEncryption) -> Judgement
        ensures { (xs : List PlacedEntry) (p : Parts) → AreKeys xs self.now → HasNumber self.now p number
            → result ≡ judged_among encryption (named p xs) }
    {
        let asked = asked_version(encryption.kvno);
        if let Some((place, _)) = self.opener(number, asked, entry_etype(encryption)) {
            return Judgement::Opens(place);
        }
        let etypes = self.fitting(number, asked, None).etypes();
        if etypes.as_slice().is_empty() {
            return Judgement::Kvno(newest(&self.groups, (number, None, None)));
        }
        Judgement::Etype(etypes)
    }

    /// Returns whether an entry has the name with that key. Takes log n comparisons.
    pub fn has(&self, key: &[u8]) -> bool
        ensures { (xs : List PlacedEntry) (p : Parts) → AreKeys xs self.now → key.now ≡ name_key p → result ≡ has_name p xs }
    {
        self.names.contains(key)
    }

    /// Returns what is said of a ticket under the name with that key. Takes log n comparisons.
    pub fn judge(&self, encryption: TicketEncryption, key: &[u8]) -> Judgement
        ensures { (xs : List PlacedEntry) (p : Parts) → AreKeys xs self.now → key.now ≡ name_key p
            → result ≡ judged_among encryption (named p xs) }
    {
        match number_of(&self.names, key) {
            Some(number) => self.judge_number(number, encryption),
            None => Judgement::Name,
        }
    }
}
