//! Selections of entries of a keytab.

ghost use Rattle.std.specs.Prelude.{◌≡◌, ◌++◌, ◌∷◌, [], if◌then◌else◌, ℕ, List, IfOk, OnOk};
ghost use Rattle.std.specs.List.{list_any};
ghost use Rattle.krb_keytab.specs.Find.{PlacedEntry, placed_entries};
ghost use Rattle.krb_audit.specs.Selection.{Selects, has_given_kvno, is_named, needs_clock, selected_in};

use crate::criteria::is_named_if_it_matters;
use crate::doubles::Doubles;
use crate::versions::SelectedVersions;
use krb_keytab::{EntryView, Keytab};
use krb_keytab_text::append_placed;
use krb_names::{AskedNames, NameFilter};
use krb_text::append;
use krb_wire::NoMemory;
use std::alloc::Allocator;
use std::marker::Model;

/// Which kvnos are selected.
#[derive(Clone, Copy, Debug, PartialEq, Eq)]
pub enum SelectedKvno {
    Any,
    Exactly(u32),
    /// That of the newest entry of the name.
    Newest,
    /// Any kvno other than the given number of newest ones of the name, at least one. With an age, in seconds, only those
    /// of names whose entries of the last of these are all at least that old.
    Beyond(u8, Option<u32>),
}

impl SelectedKvno {
    /// Returns whether the time decides which entries are selected: an age is given.
    pub fn needs_clock(self) -> bool
        ensures { result ≡ needs_clock self }
    {
        matches!(self, SelectedKvno::Beyond(_, Some(_)))
    }

    /// Returns whether a kvno is the one given, if one is given.
    pub fn may_be(self, kvno: u32) -> bool
        ensures { result ≡ has_given_kvno self kvno }
    {
        match self {
            SelectedKvno::Exactly(given) => kvno == given,
            _ => true,
        }
    }
}

/// Which entries are selected: those that meet all criteria given. Contracts see the criteria, not where they are
/// stored.
#[derive(Drop)]
pub struct Selection<A: Allocator> {
    pub names: AskedNames<A>,
    pub kvno: SelectedKvno,
    /// The enctypes; an empty list selects any.
    pub enctypes: Vec<u16, A>,
    /// Only entries that repeat an earlier one.
    pub only_same: bool,
}

impl<A: Allocator> Model for Selection<A> {
    ghost use Rattle.krb_audit.specs.Selection.{SelectionParts};

    ghost Value = { SelectionParts };

    ghost view = { λ s. record {
      names = s.names;
      kvno = s.kvno;
      enctypes = s.enctypes.items;
      only_same = s.only_same;
    } };
}

/// The entries of a keytab that a `Selection` selects.
#[derive(Drop)]
pub struct Selected<A: Allocator> {
    /// The places of their records, in file order.
    pub places: Vec<u32, A>,
    /// A line for each that reports its removal, after the label.
    pub text: Vec<u8, A>,
    /// True if some entry has a selected name, enctype and, if one is given, kvno.
    pub is_named: bool,
}

// What takes the selected entries of a keytab, in file order.
trait Taker<'k> {
    ghost use Rattle.std.specs.Prelude.{ℕ, List};
    ghost use Rattle.krb_keytab.specs.Find.{PlacedEntry};

    /// It has taken these entries, each with that label.
    ghost HasTaken: { List ℕ → Self → List PlacedEntry → Type 0 };

    /// Takes one more.
    fn take(&mut self, label: &[u8], place: u32, entry: EntryView<'k>) -> Result<(), NoMemory>
        ensures { (xs : List PlacedEntry) → HasTaken label.now self.old xs → OnOk result (HasTaken label.now self.new (xs ++ (place, entry.entry) ∷ [])) };
}

impl<'k, A: Allocator> Taker<'k> for Selected<A> {
    ghost use Rattle.krb_audit.specs.Selection.{AreAdded};

    ghost HasTaken = { λ label selected xs. AreAdded label selected xs };

    fn take(&mut self, label: &[u8], place: u32, entry: EntryView<'k>) -> Result<(), NoMemory> {
        self.places.push(place)?;
        append(label, &mut self.text)?;
        append_placed(b"removed ", place, &entry, &mut self.text)
    }
}

impl<'k, A: Allocator> Taker<'k> for Vec<(u32, EntryView<'k>), A> {
    ghost use Rattle.std.specs.Prelude.{◌≡◌};

    ghost HasTaken = { λ label entries xs. entries.items ≡ xs };

    fn take(&mut self, _label: &[u8], place: u32, entry: EntryView<'k>) -> Result<(), NoMemory> {
        self.push((place, entry))?;
        Ok(())
    }
}

// Hands an entry on if it is selected.
fn take_if<'k, T: Taker<'k>>(
    is_selected: bool,
    label: &[u8],
    place: u32,
    entry: EntryView<'k>,
    taker: &mut T,
) -> Result<(), NoMemory>
    ensures { (xs : List PlacedEntry) → T.HasTaken label.now taker.old xs
        → OnOk result (T.HasTaken label.now taker.new (if is_selected then xs ++ (place, entry.entry) ∷ [] else xs)) }
{
    if is_selected {
        return taker.take(label, place, entry);
    }
    Ok(())
}

// Hands on the entries of a keytab that are selected. Returns whether some entry has a selected name, enctype and, if one
// is given, kvno.
fn take_selected<'k, A: Allocator + Copy, B: Allocator, T: Taker<'k>>(
    alloc: A,
    label: &[u8],
    keytab: &'k Keytab<A>,
    selection: &Selection<B>,
    now: u32,
    taker: &mut T,
) -> Result<bool, NoMemory>
    requires { T.HasTaken label.now taker.old [] }
    ensures taken { OnOk result (T.HasTaken label.now taker.new (selected_in selection.now now keytab.now.state)) }
    ensures named { IfOk result (λ b. b ≡ list_any (λ x. is_named selection.now x.1) (placed_entries keytab.now.state)) }
{
    let mut names = NameFilter::of(alloc, &selection.names)?;
    let mut versions = SelectedVersions::of(alloc, keytab, selection.kvno, now)?;
    let mut doubles = Doubles::of(alloc, keytab, selection.only_same)?;
    let mut is_any_named = false;
    'entries: for (place, entry) in keytab.entries() {
        let has_kvno = versions.next(entry.kvno());
        let is_same = doubles.next(place, &entry)?;
        let may_be = has_kvno & is_same;
        let is_named = is_named_if_it_matters(is_any_named, may_be, selection, &mut names, &entry)?;
        is_any_named |= is_named;
        take_if(is_named & may_be, label, place, entry, taker)?;
    }
    Ok(is_any_named)
}

/// Returns the entries of a keytab that `selection` selects at the time `now`, in seconds, which matters if its kvno
/// `needs_clock`. Takes time n log n in the bytes of the keytab and the names, and a pass over the keytab for each pattern
/// and each kvno that is kept.
pub fn select<A: Allocator + Copy, B: Allocator>(
    alloc: A,
    label: &[u8],
    keytab: &Keytab<A>,
    selection: &Selection<B>,
    now: u32,
) -> Result<Selected<A>, NoMemory>
    ensures { IfOk result (Selects label.now selection.now now keytab.now.state) }
{
    let mut selected = Selected {
        places: Vec::new(alloc),
        text: Vec::new(alloc),
        is_named: false,
    };
    selected.is_named = take_selected(alloc, label, keytab, selection, now, &mut selected)?;
    Ok(selected)
}

/// Returns the entries of a keytab that `selection` selects, with the places of their records, in the time of `select`.
pub fn selected_entries<'k, A: Allocator + Copy, B: Allocator>(
    alloc: A,
    keytab: &'k Keytab<A>,
    selection: &Selection<B>,
) -> Result<Vec<(u32, EntryView<'k>), A>, NoMemory>
    ensures { IfOk result (λ entries. entries.items ≡ selected_in selection.now 0 keytab.now.state) }
{
    let mut entries = Vec::new(alloc);
    let _ = take_selected(alloc, b"", keytab, selection, 0, &mut entries)?;
    Ok(entries)
}
