//! Reads entries from a file into the list, and adds the list to a file.

ghost use Rattle.std.specs.Prelude.{◌≡◌, ℕ, Ok, IfOk, IfErr};
ghost use Rattle.krb_ktutil.specs.KtutilCommand.{ReadFile, WriteFile};
ghost use Rattle.krb_ktutil.specs.KtutilPlan.{KtutilState, with_entries, writing_plan, saved_as, saved_verdict, written_to, command_plan, Comes, MakesLine, line_effect, none_added, with_added, RefusesAdded};
ghost use Rattle.krb_keytab.specs.Store.{entries};

use super::Ktutil;
use crate::ktutil::line::Line;
use krb_audit::hides_added;
use krb_driver::{
    FileKind, FileName, KeytabUse, Made, NameSource, Opener, Output, RunError, Verdict, hold,
    type_of,
};
use krb_files::Files;
use krb_keytab::{Indexed, Keytab, NewEntry};
use krb_walk::{Code, Refusal};
use krb_wire::NoMemory;
use std::alloc::Allocator;

// Returns the verdict of the save of a keytab to which entries were added at these places.
fn saved_verdict<B: Allocator>(keytab: &Keytab<B>, places: &[u32]) -> Verdict
    ensures { result ≡ saved_verdict (record { keytab = keytab.now.state; places = places.now }) }
{
    if keytab.entries().next().is_none() {
        return Verdict::NoEntry;
    }
    Verdict::Well.hiding(hides_added(keytab, places))
}

// Returns the line that saves a keytab, after entries were added to it at these places.
fn saving<'l, A: Allocator + Copy>(
    alloc: A,
    name: &'l str,
    keytab: Keytab<A>,
    places: &[u32],
) -> Line<'l, A>
    ensures { (s : KtutilState) (number : ℕ) → Comes (saved_as s number name.now (Ok (record { keytab = keytab.state; places = places.now }))) s s
        (line_effect result) result.quits }
{
    let verdict = saved_verdict(&keytab, places);
    let text = Output {
        text: Vec::new(alloc),
        verdict,
    };
    Line {
        file: name,
        made: Ok(Made::Saves(keytab.into_image(), text)),
        quits: false,
    }
}

// Adds entries to a keytab, with a table of its cells, which is then to be saved under a name.
fn write_to<'l, A: Allocator + Copy>(
    alloc: A,
    entries: &[NewEntry<A>],
    number: u64,
    name: &'l str,
    keytab: Keytab<A>,
) -> Line<'l, A>
    ensures { (s : KtutilState) → s.entries ≡ entries.now →
        Comes (written_to s number name.now (Ok keytab.state)) s s (line_effect result) result.quits }
{
    let Ok(mut keytab) = Indexed::of(alloc, keytab) else {
        return Line::fails(name, RunError::NoMemory);
    };
    match add_all(alloc, &mut keytab, entries) {
        Ok(places) => saving(alloc, name, keytab.into_keytab(), &places),
        Err(Refusal::Code(code)) => {
            Line::fails(name, RunError::LineRefused { line: number, code })
        }
        Err(Refusal::NoMemory) => Line::fails(name, RunError::NoMemory),
    }
}

impl<A: Allocator + Copy> Ktutil<A> {
    // Appends copies of the entries of the keytab of that name. Refuses a damaged one.
    fn take_entries<'l, B: Allocator>(
        &mut self,
        number: u64,
        name: &'l str,
        keytab: &Keytab<B>,
    ) -> Line<'l, A>
        ensures { Comes (with_entries self.old number name.now (Ok keytab.now.state)) self.old self.new (line_effect result) result.quits }
    {
        if keytab.fault().is_some() {
            let code = Code::Damaged;
            return Line::fails(name, RunError::LineRefused { line: number, code });
        }
        let Ok(mut copies) = copy_entries(self.alloc, keytab) else {
            return Line::fails(name, RunError::NoMemory);
        };
        match self.entries.append(&mut copies) {
            Ok(()) => Line::done(self.alloc),
            Err(_) => Line::fails(name, RunError::NoMemory),
        }
    }

    // Appends the entries of the file that a word names, unless its type is not read.
    #[tactic(auto, using(crate::proofs::KtutilHandles::makes_end))]
    pub(crate) fn read<'l, F: Files>(
        &mut self,
        files: &mut F,
        number: u64,
        word: &'l str,
    ) -> Line<'l, A>
        ensures { MakesLine F.Files (command_plan self.old number (ReadFile word.now))
            files.old files.new self.old self.new (line_effect result) result.quits }
    {
        let file = FileName::of(FileKind::Keytab, word, NameSource::Word);
        if file.is_other_type {
            return Line::fails(
                file.name,
                RunError::OtherType(FileKind::Keytab, NameSource::Word),
            );
        }
        let opener = KeytabUse::Read(self.v1_order);
        match opener.load(self.alloc, false, files, file.name) {
            Ok(keytab) => self.take_entries(number, file.name, &keytab),
            Err(why) => Line::fails(file.name, why),
        }
    }

    // Adds the list to a file that is held.
    fn write_held<'l, F: Files>(&self, files: &mut F, number: u64, name: &'l str) -> Line<'l, A>
        ensures { MakesLine F.Files (writing_plan self.now number name.now)
            files.old files.new self.now self.now (line_effect result) result.quits }
    {
        let opener = KeytabUse::Edit(self.v1_order);
        match opener.load(self.alloc, false, files, name) {
            Ok(keytab) => write_to(self.alloc, &self.entries, number, name, keytab),
            Err(why) => Line::fails(name, why),
        }
    }

    // Adds the list to the file that a word names, and holds it from then on, unless the word begins with a type.
    #[tactic(auto, using(crate::proofs::KtutilHandles::writes))]
    pub(crate) fn write<'l, F: Files>(
        &self,
        files: &mut F,
        number: u64,
        word: &'l str,
    ) -> Line<'l, A>
        ensures { MakesLine F.Files (command_plan self.now number (WriteFile word.now))
            files.old files.new self.now self.now (line_effect result) result.quits }
    {
        if type_of(word.as_bytes()).is_some() {
            return Line::fails(word, RunError::TypedName);
        }
        hold(files, word);
        self.write_held(files, number, word)
    }
}

fn copy_entries<A: Allocator + Copy, B: Allocator>(
    alloc: A,
    keytab: &Keytab<B>,
) -> Result<Vec<NewEntry<A>, A>, NoMemory>
    ensures { IfOk result (λ copies. copies.items ≡ entries keytab.now.state) }
{
    let mut copies = Vec::new(alloc);
    'entries: for (_, entry) in keytab.entries() {
        copies.push(entry.copy(alloc)?)?;
    }
    Ok(copies)
}

// Adds entries to a keytab in order, up to the first that is refused, and returns their places.
fn add_all<A: Allocator, B: Allocator>(
    alloc: B,
    keytab: &mut Indexed<B>,
    entries: &[NewEntry<A>],
) -> Result<Vec<u32, B>, Refusal>
    ensures ok { IfOk result (λ places. with_added entries.now (Ok (none_added keytab.old.state))
        ≡ Ok (record { keytab = keytab.new.state; places = places.items })) }
    ensures err { IfErr result (RefusesAdded (with_added entries.now (Ok (none_added keytab.old.state)))) }
{
    let mut places = Vec::new(alloc);
    'entries: for entry in entries {
        let place = keytab.add(entry)?;
        places.push(place)?;
    }
    Ok(places)
}
