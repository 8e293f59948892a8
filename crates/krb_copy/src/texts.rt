//! The names and keys of entries, in one buffer, so that a keytab that had them can be changed.

ghost use Rattle.std.specs.Prelude.{◌≡◌, ◌∷◌, ◌++◌, [], ℕ, List, Option, OnOk, IfOk};
ghost use Rattle.krb_wire.specs.Names.{name_text};
ghost use Rattle.krb_keytab.specs.Find.{PlacedEntry, placed_entries};
ghost use Rattle.krb_copy.specs.Copying.{asked_as};
ghost use Rattle.krb_copy.specs.Made.{name_in};
ghost use Rattle.krb_copy.specs.Texts.{AreNames, AreTexts, asked_texts, entry_texts, name_texts};

use krb_keytab::{EntryView, Keytab};
use krb_text::append;
use krb_wire::{Name, NoMemory, Principal, write_name};
use std::alloc::Allocator;

// How many bytes a name's text seldom exceeds.
const USUAL_LEN: usize = 40;

// How many bytes an entry of a keytab takes at least, beside its key and the text of a name with nothing to quote.
const REST_LEN: usize = 22;

/// Texts, one after another, and their lengths.
#[derive(Drop)]
pub struct Texts<A: Allocator> {
    bytes: Vec<u8, A>,
    lens: Vec<u32, A>,
}

/// The texts that are left.
#[derive(Drop)]
pub struct TextsLeft<'t> {
    bytes: &'t [u8],
    lens: &'t [u32],
}

/// The names of the entries that are left.
#[derive(Drop)]
pub enum NamesLeft<'t> {
    Own(TextsLeft<'t>),
    /// Each has this one.
    New(&'t [u8]),
}

// Returns a capacity that most names and keys of a keytab, and names of `count` entries, fit. It is seldom much more:
// what is not used is cleared in the end.
fn usual_capacity<B: Allocator>(keytab: &Keytab<B>, count: usize) -> usize {
    let rest = (keytab.cell_count() as usize).saturating_mul(REST_LEN);
    let own = keytab.image().len().saturating_sub(rest);
    own.saturating_add(count.saturating_mul(USUAL_LEN))
}

impl<A: Allocator + Copy> Texts<A> {
    // Appends the length of a text. No name or key of a keytab has 2 ^ 32 bytes.
    fn push_len(&mut self, len: usize) -> Result<(), NoMemory>
        ensures bytes { self.new.bytes ≡ self.old.bytes }
        ensures lens { OnOk result (self.new.lens.items ≡ self.old.lens.items ++ len ∷ []) }
    {
        let len = u32::try_from(len).map_err(|_| NoMemory)?;
        Ok(self.lens.push(len)?)
    }

    // Appends a name.
    fn push_name<N: Name>(&mut self, name: &N) -> Result<(), NoMemory>
        ensures { (ts : List (List ℕ)) → AreTexts ts self.old.bytes.items self.old.lens.items
            → OnOk result (AreTexts (ts ++ name_text (N.parts name.now) ∷ []) self.new.bytes.items self.new.lens.items) }
    {
        let start = self.bytes.len();
        write_name(name, &mut self.bytes)?;
        let end = self.bytes.len();
        self.push_len(end - start)
    }

    // Appends the name and the key of an entry.
    fn push_entry(&mut self, entry: &EntryView<'_>) -> Result<(), NoMemory>
        ensures { (ts : List (List ℕ)) → AreTexts ts self.old.bytes.items self.old.lens.items
            → OnOk result (AreTexts (ts ++ name_text entry.now.principal ∷ entry.now.key ∷ []) self.new.bytes.items self.new.lens.items) }
    {
        self.push_name(entry.principal())?;
        let key = entry.key();
        append(key, &mut self.bytes)?;
        self.push_len(key.len())
    }

    // Appends the names of entries.
    fn push_names(&mut self, asked: &[(u32, EntryView<'_>)]) -> Result<(), NoMemory>
        ensures { (ts : List (List ℕ)) → AreTexts ts self.old.bytes.items self.old.lens.items
            → OnOk result (AreTexts (ts ++ name_texts asked.now) self.new.bytes.items self.new.lens.items) }
    {
        'asked: for (_place, entry) in asked {
            self.push_name(entry.principal())?;
        }
        Ok(())
    }

    // Appends the names of entries, or once their new one.
    fn push_asked<B: Allocator>(
        &mut self,
        asked: &[(u32, EntryView<'_>)],
        new_name: Option<&Principal<B>>,
    ) -> Result<(), NoMemory>
        ensures { (ts : List (List ℕ)) → AreTexts ts self.old.bytes.items self.old.lens.items
            → OnOk result (AreTexts (ts ++ asked_texts (name_in new_name.entry) asked.now)
            self.new.bytes.items self.new.lens.items) }
    {
        match new_name {
            None => self.push_names(asked),
            Some(name) => self.push_name(name),
        }
    }

    /// Returns the names and keys of a keytab's entries, and the names of those asked for, or once their new one.
    pub fn of<B: Allocator, C: Allocator>(
        alloc: A,
        keytab: &Keytab<B>,
        asked: &[(u32, EntryView<'_>)],
        new_name: Option<&Principal<C>>,
    ) -> Result<Texts<A>, NoMemory>
        ensures { IfOk result (λ texts. AreTexts
            (entry_texts (placed_entries keytab.now.state) ++ asked_texts (name_in new_name.entry) asked.now)
            texts.bytes.items texts.lens.items) }
    {
        let mut texts = Texts {
            bytes: Vec::with_capacity(alloc, usual_capacity(keytab, asked.len()))?,
            lens: Vec::new(alloc),
        };
        'entries: for (_place, entry) in keytab.entries() {
            texts.push_entry(&entry)?;
        }
        texts.push_asked(asked, new_name)?;
        Ok(texts)
    }

    /// Returns the names of the entries of two lists.
    pub fn of_both(
        alloc: A,
        ours: &[(u32, EntryView<'_>)],
        others: &[(u32, EntryView<'_>)],
    ) -> Result<Texts<A>, NoMemory>
        ensures { IfOk result (λ texts. AreTexts (name_texts (ours.now ++ others.now)) texts.bytes.items texts.lens.items) }
    {
        let count = ours.len().saturating_add(others.len());
        let mut texts = Texts {
            bytes: Vec::with_capacity(alloc, count.saturating_mul(USUAL_LEN))?,
            lens: Vec::with_capacity(alloc, count)?,
        };
        texts.push_names(ours)?;
        texts.push_names(others)?;
        Ok(texts)
    }

    /// Returns all of them.
    pub fn left(&self) -> TextsLeft<'_>
        ensures { (ts : List (List ℕ)) → AreTexts ts self.now.bytes.items self.now.lens.items
            → AreTexts ts result.bytes.now result.lens.now }
    {
        TextsLeft {
            bytes: &self.bytes,
            lens: &self.lens,
        }
    }
}

impl<'t> TextsLeft<'t> {
    /// Returns the next.
    pub fn next(&mut self) -> &'t [u8]
        ensures { (t : List ℕ) (ts : List (List ℕ)) → AreTexts (t ∷ ts) self.old.bytes.now self.old.lens.now
            → (result.now ≡ t) × AreTexts ts self.new.bytes.now self.new.lens.now }
    {
        let Some((len, lens)) = self.lens.split_first() else {
            return &[];
        };
        let Some((text, bytes)) = self.bytes.split_at_checked(*len as usize) else {
            return &[];
        };
        self.lens = lens;
        self.bytes = bytes;
        text
    }

    /// Returns the names of the entries asked for, once these texts are left.
    pub fn names<B: Allocator>(mut self, new_name: Option<&Principal<B>>) -> NamesLeft<'t>
        ensures { (asked : List PlacedEntry) (kvno : Option ℕ)
            → AreTexts (asked_texts (name_in new_name.entry) asked) self.entry.bytes.now self.entry.lens.now
            → AreNames (asked_as (record { name = name_in new_name.entry; kvno = kvno }) asked) result }
    {
        match new_name {
            None => NamesLeft::Own(self),
            Some(_) => NamesLeft::New(self.next()),
        }
    }
}

impl<'t> NamesLeft<'t> {
    /// Returns that of the next entry.
    pub fn next(&mut self) -> &'t [u8]
        ensures { (x : PlacedEntry) (asked : List PlacedEntry) → AreNames (x ∷ asked) self.old
            → (result.now ≡ name_text x.1.principal) × AreNames asked self.new }
    {
        match self {
            NamesLeft::Own(texts) => texts.next(),
            NamesLeft::New(name) => *name,
        }
    }
}
