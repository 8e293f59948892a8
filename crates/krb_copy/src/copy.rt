//! Copying the entries asked for into a keytab.

ghost use Rattle.std.specs.Prelude.{◌≡◌, ◌∷◌, List, Some, IfOk, IfErr};
ghost use Rattle.krb_wire.specs.Reading.{principal_parts};
ghost use Rattle.krb_keytab.specs.Find.{PlacedEntry};
ghost use Rattle.krb_copy.specs.Copying.{Run, asked_as, copy_run, has_lines, renamed, renewed, run_after, run_over, step_of, versioned};
ghost use Rattle.krb_copy.specs.Made.{Ends, IsMade, IsRefusedBy, IsRun, Meets, end_at, new_in};

use crate::class::{Class, Step};
use crate::classes::{Classes, class_key, classes_of};
use crate::making::Making;
use crate::texts::{NamesLeft, Texts};
use krb_keytab::{EntryView, Fields, Indexed, Keytab, NewEntry};
use krb_walk::Refusal;
use krb_wire::{Name, NoMemory, Principal, copy_name};
use std::alloc::Allocator;

// How many bytes a line seldom exceeds.
const USUAL_LINE: usize = 80;

/// What copies get in place of their own, where it is given.
#[derive(Clone, Copy)]
pub struct CopyAs<'n, B: Allocator> {
    /// A name. Its type stays that of the entry's own.
    pub name: Option<&'n Principal<B>>,
    /// A version, whichever there is.
    pub kvno: Option<u32>,
}

/// What copying came to.
#[derive(Drop)]
pub struct Copied<A: Allocator> {
    /// A line for each removal, each copy and each clash, in order. If there is none, nothing was changed.
    pub text: Vec<u8, A>,
    /// The lines of the clashes alone. If there is one, the keytab is not to be saved.
    pub clashes: Vec<u8, A>,
    /// The places to which entries were copied, in order.
    pub places: Vec<u32, A>,
    pub keytab: Keytab<A>,
}

// A run, and the names of the entries that it meets next.
#[derive(Drop)]
struct Copying<'t, A: Allocator> {
    making: Making<A>,
    classes: Classes<'t, A>,
    names: NamesLeft<'t>,
    replace: bool,
}

// Returns a copy of an entry under a new name, which gets the type of its own.
fn renamed<A: Allocator + Copy, B: Allocator>(
    alloc: A,
    entry: &EntryView<'_>,
    name: &Principal<B>,
) -> Result<NewEntry<A>, NoMemory>
    ensures { IfOk result (λ e. e ≡ renamed (Some (principal_parts name.now)) entry.now) }
{
    let mut new = entry.copy(alloc)?;
    new.principal = copy_name(alloc, name)?;
    new.principal.name_type = entry.principal().name_type();
    Ok(new)
}

// Returns the fields of an entry with a new version, if one is given.
fn versioned<'e, N: Name>(fields: Fields<'e, N>, kvno: Option<u32>) -> Fields<'e, N>
    ensures { result ≡ versioned kvno fields.entry }
{
    match kvno {
        None => fields,
        Some(kvno) => Fields { kvno, ..fields },
    }
}

impl<'t, A: Allocator + Copy> Copying<'t, A> {
    // Copies the next entry, with its key, after its twins are removed, adds the line of its clash, or does nothing.
    fn meet<N: Name>(
        &mut self,
        alloc: A,
        place: u32,
        entry: &Fields<'_, N>,
        key: &'t [u8],
    ) -> Result<(), Refusal>
        requires { key.now ≡ entry.now.key }
        ensures meets { (run : Run) (asked : List PlacedEntry) → IsRun run ((place, entry.now) ∷ asked) self.old
            → Meets run asked (run_after run (place, entry.now)
            (step_of self.old.replace run.before run.held entry.now)) result self.new }
        ensures replace { self.new.replace ≡ self.old.replace }
    {
        let kind = class_key(self.names.next(), entry);
        let class = self.classes.entry(kind)?.or_insert(Class::Empty);
        match class.step(self.replace, key) {
            Step::There => class.keep(),
            Step::Clash(twin) => self.making.clash(place, entry, twin)?,
            Step::Copy(places) => {
                let place = self.making.copy(alloc, places, entry)?;
                *class = Class::One(place, key, true);
            }
        }
        Ok(())
    }

    // Meets the next entry as it is copied.
    fn meet_as<B: Allocator>(
        &mut self,
        alloc: A,
        place: u32,
        entry: &EntryView<'t>,
        new: &CopyAs<'_, B>,
    ) -> Result<(), Refusal>
        ensures meets { (run : Run) (asked : List PlacedEntry)
            → IsRun run ((place, renewed (new_in new.now) entry.now) ∷ asked) self.old
            → Meets run asked (run_after run (place, renewed (new_in new.now) entry.now)
            (step_of self.old.replace run.before run.held (renewed (new_in new.now) entry.now))) result self.new }
        ensures replace { self.new.replace ≡ self.old.replace }
    {
        match new.name {
            None => {
                let fields = versioned(entry.fields(), new.kvno);
                self.meet(alloc, place, &fields, entry.key())
            }
            Some(name) => {
                let named = renamed(alloc, entry, name)?;
                let fields = versioned(named.fields(), new.kvno);
                self.meet(alloc, place, &fields, entry.key())
            }
        }
    }

    // Ends the run at a refusal.
    fn end(&self, refusal: Refusal) -> Result<(), Refusal>
        ensures { result ≡ end_at (has_lines self.now.making.clashes.items) refusal }
    {
        match refusal {
            Refusal::Code(_) if !self.making.clashes.is_empty() => Ok(()),
            _ => Err(refusal),
        }
    }

    // Goes over the entries asked for, each as it is copied.
    fn go_over<B: Allocator>(
        &mut self,
        alloc: A,
        asked: &'t [(u32, EntryView<'t>)],
        new: &CopyAs<'_, B>,
    ) -> Result<(), Refusal>
        ensures { (run : Run) → IsRun run (asked_as (new_in new.now) asked.now) self.old
            → Ends (run_over self.old.replace (asked_as (new_in new.now) asked.now) run) result self.new }
    {
        'asked: for (place, entry) in asked {
            if let Err(refusal) = self.meet_as(alloc, *place, entry, new) {
                return self.end(refusal);
            }
        }
        Ok(())
    }
}

/// Copies the entries asked for, which have their places in another keytab, in order, with the new name and version, if
/// these are given, and the name type of each. One with name, kvno, enctype and key of an entry of the keytab is passed over.
/// One with the name, kvno and enctype of others clashes, or with `replace` takes their place, unless one of these was
/// copied before or has the key of an entry asked for before. Refused as an addition is; one that is refused after a clash
/// ends the run. Takes time n log n in the bytes of both.
pub fn copy_into<A: Allocator + Copy, B: Allocator>(
    alloc: A,
    asked: &[(u32, EntryView<'_>)],
    new: &CopyAs<'_, B>,
    to: Keytab<A>,
    replace: bool,
) -> Result<Copied<A>, Refusal>
    ensures made { IfOk result (λ copied. IsMade (copy_run replace (asked_as (new_in new.now) asked.now) to.state)
        copied.text.items copied.clashes.items copied.places.items copied.keytab.state) }
    ensures refused { IfErr result (IsRefusedBy (copy_run replace (asked_as (new_in new.now) asked.now) to.state)) }
{
    let texts = Texts::of(alloc, &to, asked, new.name)?;
    let mut left = texts.left();
    let classes = classes_of(alloc, &to, &mut left)?;
    let Ok(keytab) = Indexed::of(alloc, to) else {
        return Err(Refusal::NoMemory);
    };
    let text = Vec::with_capacity(alloc, asked.len().saturating_mul(USUAL_LINE))?;
    let making = Making {
        keytab,
        text,
        clashes: Vec::new(alloc),
        places: Vec::new(alloc),
    };
    let mut copying = Copying {
        making,
        classes,
        names: left.names(new.name),
        replace,
    };
    copying.go_over(alloc, &*asked, new)?;
    Ok(Copied {
        text: copying.making.text,
        clashes: copying.making.clashes,
        places: copying.making.places,
        keytab: copying.making.keytab.into_keytab(),
    })
}
