//! The classes of twins that a keytab has during a run.

ghost use Rattle.std.specs.Prelude.{◌≡◌, ◌∷◌, ◌++◌, [], ℕ, List, map, OnOk, IfOk};
ghost use Rattle.krb_wire.specs.Names.{name_text};
ghost use Rattle.krb_keytab.specs.Entry.{EntryParts};
ghost use Rattle.krb_keytab.specs.Find.{placed_entries};
ghost use Rattle.krb_copy.specs.Copying.{Held, as_found};
ghost use Rattle.krb_copy.specs.Classes.{AreClasses, IsClassKey};
ghost use Rattle.krb_copy.specs.Texts.{AreTexts, entry_texts};

use crate::class::Class;
use crate::texts::TextsLeft;
use krb_keytab::{Fields, Keytab};
use krb_names::hash_of;
use krb_wire::{Name, NoMemory};
use std::alloc::Allocator;
use std::collections::BTreeMap;

/// What twins have in common: a number, which is cheap to compare, and the text of their name. Of entries with one such
/// text, those with the same number have the same version and enctype, and both or neither have a name without components,
/// which prints as one with an empty component.
pub type ClassKey<'t> = (u64, &'t [u8]);

/// Returns that of an entry, by the text of its name.
pub fn class_key<'t, N: Name>(name: &'t [u8], entry: &Fields<'_, N>) -> ClassKey<'t>
    ensures { name.now ≡ name_text entry.now.principal → IsClassKey entry.now result }
{
    let kind = u64::from(entry.kvno) * 65_536 + u64::from(entry.enctype);
    let is_empty = entry.principal.count() == 0;
    // A kind has 49 bits, so the sum fits if the hash has no more.
    let hash = hash_of(name) / 32_768;
    (hash + (kind * 2 + u64::from(is_empty)), name)
}

/// The class of each entry that has twins in the keytab.
pub type Classes<'t, A> = BTreeMap<ClassKey<'t>, Class<'t, A>, A>;

// Adds an entry that the keytab has before the run.
fn add<'t, A: Allocator + Copy>(
    classes: &mut Classes<'t, A>,
    alloc: A,
    key: ClassKey<'t>,
    place: u32,
    secret: &'t [u8],
) -> Result<(), NoMemory>
    ensures { (held : List Held) (x : EntryParts) → AreClasses [] held classes.old
        → IsClassKey x key.entry → secret.now ≡ x.key
        → OnOk result (AreClasses [] (held ++ as_found (place, x) ∷ []) classes.new) }
{
    classes
        .entry(key)?
        .or_insert(Class::Empty)
        .push(alloc, place, secret)?;
    Ok(())
}

/// Returns those of a keytab before a run. The next texts are those of its entries.
pub fn classes_of<'t, A: Allocator + Copy, B: Allocator>(
    alloc: A,
    keytab: &Keytab<B>,
    texts: &mut TextsLeft<'t>,
) -> Result<Classes<'t, A>, NoMemory>
    ensures classes { (more : List (List ℕ))
        → AreTexts (entry_texts (placed_entries keytab.now.state) ++ more) texts.old.bytes.now texts.old.lens.now
        → IfOk result (AreClasses [] (map as_found (placed_entries keytab.now.state))) }
    ensures texts { (more : List (List ℕ))
        → AreTexts (entry_texts (placed_entries keytab.now.state) ++ more) texts.old.bytes.now texts.old.lens.now
        → OnOk result (AreTexts more texts.new.bytes.now texts.new.lens.now) }
{
    let mut classes = BTreeMap::new(alloc);
    'entries: for (place, entry) in keytab.entries() {
        let key = class_key(texts.next(), &entry.fields());
        let secret = texts.next();
        add(&mut classes, alloc, key, place, secret)?;
    }
    Ok(classes)
}
