//! The list of entries that the lines of ktutil change.

mod additions;
mod transfer;

ghost use Rattle.std.specs.Prelude.{Some, ◌≡◌, [], ℕ, length};
ghost use Rattle.krb_ktutil.specs.declared.ktutil.verb.Verb.TheVariants as verb;
ghost use Rattle.krb_ktutil.specs.KtutilCommand.{words, ClearList, Quit, alone, asks_for_password, listing, command_by, command_of};
ghost use Rattle.krb_ktutil.specs.KtutilPlan.{KtutilState, after_fault, is_pending, plan_of, words_plan, Attempts, MakesLine, Spares, Tries, line_effect};
ghost use Rattle.krb_ktutil.specs.KtutilTalk.{prompt_of};

use crate::ktutil::awaiting::{Addition, Awaiting};
use crate::ktutil::command::{columns, file_name, is_bare, slot};
use crate::ktutil::line::Line;
use crate::ktutil::verb::{Verb, asks_for_password, fault_error, verb_of};
use crate::ktutil::words::next_word;
use krb_driver::RunError;
use krb_files::Files;
use krb_keytab::NewEntry;
use krb_keytab_text::list_slots;
use krb_text::{LineFault, LineRefusal};
use krb_wire::Order;
use std::alloc::Allocator;
use std::marker::Model;

/// A list of entries, and what the next line is.
#[derive(Drop)]
pub struct Ktutil<A: Allocator> {
    alloc: A,
    v1_order: Order,
    entries: Vec<NewEntry<A>, A>,
    awaiting: Awaiting<Addition<A>>,
}

impl<A: Allocator> Model for Ktutil<A> {
    ghost Value = { KtutilState };

    ghost view = { λ k. record {
      order = k.v1_order;
      entries = k.entries.items;
      awaiting = k.awaiting;
    } };
}

impl<A: Allocator + Copy> Ktutil<A> {
    /// Returns an empty list. `v1_order` is the byte order of version 1 keytabs.
    pub fn new(alloc: A, v1_order: Order) -> Ktutil<A>
        ensures { result ≡ record { order = v1_order; entries = []; awaiting = Awaiting.Nothing } }
    {
        Ktutil {
            alloc,
            v1_order,
            entries: Vec::new(alloc),
            awaiting: Awaiting::Nothing,
        }
    }

    /// Returns the entries, in order.
    pub fn entries(&self) -> &[NewEntry<A>]
        ensures { result.now ≡ self.now.entries }
    {
        &self.entries
    }

    /// Returns whether the next line is read as a key, or passed over as a password.
    pub fn pending(&self) -> bool
        ensures { result ≡ is_pending self.now.awaiting }
    {
        self.awaiting.is_pending()
    }

    /// Returns the prompt before the next line.
    pub fn prompt(&self) -> &[u8]
        ensures { result.now ≡ prompt_of self.now.awaiting }
    {
        self.awaiting.prompt()
    }

    fn list<'l>(&self, rest: &[u8]) -> Result<Line<'l, A>, LineRefusal>
        ensures { (number : ℕ) → Attempts self.now number (listing (words rest.now)) self.now result }
    {
        let columns = columns(rest).ok_or(LineFault::WordCount)?;
        let mut text = Vec::new(self.alloc);
        list_slots(self.alloc, &self.entries, columns, &mut text)?;
        Ok(Line::prints(text))
    }

    fn delete<'l>(&mut self, rest: &[u8]) -> Result<Line<'l, A>, LineRefusal>
        ensures { (number : ℕ) → Attempts self.old number (command_by (length self.old.entries) (Some verb.Delete) (words rest.now)) self.new result }
    {
        let slot = slot(rest, self.entries.len())?;
        let _ = self.entries.remove(slot as usize - 1);
        Ok(Line::done(self.alloc))
    }

    fn clear<'l>(&mut self, rest: &[u8]) -> Result<Line<'l, A>, LineRefusal>
        ensures { (number : ℕ) → Attempts self.old number (alone ClearList (words rest.now)) self.new result }
    {
        if !is_bare(rest) {
            return Err(LineRefusal::Fault(LineFault::WordCount));
        }
        self.entries.clear();
        Ok(Line::done(self.alloc))
    }

    fn quit<'l>(&self, rest: &[u8]) -> Result<Line<'l, A>, LineRefusal>
        ensures { (number : ℕ) → Attempts self.now number (alone Quit (words rest.now)) self.now result }
    {
        if !is_bare(rest) {
            return Err(LineRefusal::Fault(LineFault::WordCount));
        }
        Ok(Line {
            quits: true,
            ..Line::done(self.alloc)
        })
    }

    // Runs a command with the words after it.
    #[tactic(auto, using(crate::proofs::KtutilHandles::tries_end))]
    fn run<'l, F: Files>(
        &mut self,
        files: &mut F,
        number: u64,
        verb: Verb,
        rest: &'l [u8],
    ) -> Result<Line<'l, A>, LineRefusal>
        ensures { Tries F.Files files.old files.new self.old number
            (command_by (length self.old.entries) (Some verb) (words rest.now)) self.new result }
    {
        match verb {
            Verb::List => self.list(rest),
            Verb::Read => Ok(self.read(files, number, file_name(rest)?)),
            Verb::Write => Ok(self.write(files, number, file_name(rest)?)),
            Verb::Add => self.add(rest),
            Verb::Delete => self.delete(rest),
            Verb::Clear => self.clear(rest),
            Verb::Quit => self.quit(rest),
        }
    }

    #[tactic(auto, using(crate::proofs::KtutilHandles::makes_end))]
    fn command<'l, F: Files>(
        &mut self,
        files: &mut F,
        number: u64,
        line: &'l [u8],
    ) -> Result<Line<'l, A>, LineRefusal>
        ensures { Tries F.Files files.old files.new self.old number
            (command_of line.now (length self.old.entries)) self.new result }
    {
        let Some((word, rest)) = next_word(line) else {
            return Ok(Line::done(self.alloc));
        };
        match verb_of(word) {
            Some(verb) => self.run(files, number, verb, rest),
            None => Err(LineRefusal::Fault(LineFault::UnknownWord)),
        }
    }

    // Awaits a password if a faulty line asks for one in place of a key.
    fn await_password(&mut self, line: &[u8])
        ensures { self.new ≡ after_fault (asks_for_password (words line.now)) self.old }
    {
        if asks_for_password(line) {
            self.awaiting = Awaiting::Password;
        }
    }

    // Runs a line that is not awaited.
    #[tactic(auto, using(crate::proofs::KtutilHandles::tried_fault))]
    fn run_words<'l, F: Files>(&mut self, files: &mut F, number: u64, line: &'l [u8]) -> Line<'l, A>
        ensures { MakesLine F.Files (words_plan self.old number (words line.now) (command_of line.now (length self.old.entries)))
            files.old files.new self.old self.new (line_effect result) result.quits }
    {
        match self.command(files, number, line) {
            Ok(made) => made,
            Err(LineRefusal::NoMemory) => Line::fails("", RunError::NoMemory),
            Err(LineRefusal::Fault(fault)) => {
                self.await_password(line);
                Line::fails("", fault_error(number, line, fault))
            }
        }
    }

    #[tactic(auto, using(crate::proofs::KtutilHandles::makes_end))]
    fn run_line<'l, F: Files>(
        &mut self,
        files: &mut F,
        now: u32,
        number: u64,
        line: &'l [u8],
    ) -> Line<'l, A>
        ensures { MakesLine F.Files (plan_of self.old now number line.now)
            files.old files.new self.old self.new (line_effect result) result.quits }
    {
        match &self.awaiting {
            Awaiting::Nothing => self.run_words(files, number, line),
            Awaiting::Key(_) => self.take_key(now, number, line),
            Awaiting::Password => {
                self.awaiting = Awaiting::Nothing;
                Line::done(self.alloc)
            }
        }
    }

    /// Runs a line of that number up to what it is to show or save, or reads it as the key if one is awaited, with the
    /// time `now`, or passes over it if a password is. A file that it is to save stays held.
    pub fn line<'l, F: Files>(
        &mut self,
        files: &mut F,
        now: u32,
        number: u64,
        line: &'l [u8],
    ) -> Line<'l, A>
        ensures made { MakesLine F.Files (plan_of self.old now number line.now)
            files.old files.new self.old self.new (line_effect result) result.quits }
        ensures spared { Spares self.old self.new (line_effect result) }
    {
        self.run_line(files, now, number, line)
    }
}
