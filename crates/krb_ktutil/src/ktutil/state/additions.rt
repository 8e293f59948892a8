//! Adds entries: their commands, and the lines after those.

ghost use Rattle.std.specs.Prelude.{[], ℕ, Ok, IsSome, IfSome};
ghost use Rattle.krb_files.specs.Plan.{Ends};
ghost use Rattle.krb_ktutil.specs.KtutilCommand.{words, addition};
ghost use Rattle.krb_ktutil.specs.KtutilPlan.{awaited_entry, with_key, plan_of, Attempts, EndsAt, line_effect, key_line};
ghost use Rattle.krb_text.specs.LineFault.{Reads};

use super::Ktutil;
use crate::ktutil::awaiting::Awaiting;
use crate::ktutil::line::Line;
use crate::ktutil::options::addition;
use crate::ktutil::verb::fault_error;
use crate::ktutil::words::trimmed;
use krb_driver::RunError;
use krb_keytab::NewEntry;
use krb_text::{LineFault, LineRefusal, parse_key};
use std::alloc::Allocator;
use std::mem;

impl<A: Allocator + Copy> Ktutil<A> {
    // Adds the entry that awaits its key, with the time `now`.
    fn add_with_key<'l>(&mut self, key: Vec<u8, A>, now: u32) -> Line<'l, A>
        requires { IsSome (awaited_entry self.old.awaiting) }
        ensures { IfSome (awaited_entry self.old.awaiting) (λ x.
            EndsAt (Ends (with_key self.old 0 [] x now (Ok key.items))) self.old self.new (line_effect result) result.quits) }
    {
        let Ok(()) = self.entries.reserve(1) else {
            return Line::fails("", RunError::NoMemory);
        };
        let Awaiting::Key(addition) = mem::replace(&mut self.awaiting, Awaiting::Nothing) else {
            unreachable!()
        };
        let entry = NewEntry {
            principal: addition.principal,
            timestamp: now,
            kvno: addition.kvno,
            enctype: addition.enctype,
            key,
        };
        let Ok(()) = self.entries.push(entry) else {
            unreachable!()
        };
        Line::done(self.alloc)
    }

    // Reads a line as the key that is awaited: adds its entry, or drops it if the key is faulty.
    pub(crate) fn take_key<'l>(&mut self, now: u32, number: u64, line: &[u8]) -> Line<'l, A>
        requires { IsSome (awaited_entry self.old.awaiting) }
        ensures { EndsAt (plan_of self.old now number line.now) self.old self.new (line_effect result) result.quits }
    {
        let Awaiting::Key(addition) = &self.awaiting else {
            unreachable!()
        };
        match key_of(self.alloc, addition.enctype, line) {
            Ok(key) => self.add_with_key(key, now),
            Err(LineRefusal::Fault(fault)) => {
                self.awaiting = Awaiting::Nothing;
                Line::fails("", fault_error(number, line, fault))
            }
            Err(LineRefusal::NoMemory) => Line::fails("", RunError::NoMemory),
        }
    }

    // Parses an entry, whose key is the next line.
    #[tactic(auto, using(crate::proofs::KtutilHandles::attempts_refused))]
    pub(crate) fn add<'l>(&mut self, rest: &[u8]) -> Result<Line<'l, A>, LineRefusal>
        ensures { (number : ℕ) → Attempts self.old number (addition (words rest.now)) self.new result }
    {
        let addition = addition(self.alloc, rest)?;
        self.awaiting = Awaiting::Key(addition);
        Ok(Line::done(self.alloc))
    }
}

// Parses a line as a key of at least one byte: hexadecimal, with blanks at its ends allowed.
fn key_of<A: Allocator>(alloc: A, enctype: u16, line: &[u8]) -> Result<Vec<u8, A>, LineRefusal>
    ensures { Reads (λ key. key.items) (key_line enctype line.now) result }
{
    let digits = trimmed(line);
    if digits.is_empty() {
        return Err(LineRefusal::Fault(LineFault::BadKey));
    }
    parse_key(alloc, enctype, digits)
}
