//! A held file, or why a file is not held.

ghost use Rattle.std.specs.Prelude.{◌≡◌, ◌↔◌, ◌≤◌, ◌∷◌, IsTrue, IfErr, IfOk, OnOk, OnErr, vec_len};
ghost use Rattle.krb_files.specs.Log.{entries_of};
ghost use Rattle.krb_disk.specs.Aftermaths.{IsDone, IsRefused};
ghost use Rattle.krb_disk.specs.Holding.{HasLoaded, name_of};

use crate::calls::Calls;
use crate::deadline::Deadline;
use crate::fault::{DiskFault, ReadFault, Unsaved};
use crate::in_place::save_in_place;
use crate::looks::{Found, Looks};
use crate::old::{Old, Way};
use crate::open_file::System;
use crate::read::read_file;
use crate::replacing::Replacing;
use crate::target::find_target;
use krb_files::{Aftermath, Cause};
use std::alloc::Allocator;
use std::rt;

/// A held file, by how it is to be saved.
#[derive(Drop)]
pub enum Held<R: rt::Files + Alloc> {
    Replacing(Replacing<R>),
    InPlace(Old<R>),
}

/// Why a file is not held: it cannot be saved.
#[derive(Drop)]
pub struct NotHeld<A: Allocator> {
    pub why: DiskFault,
    /// The name of a pipe. It is not loaded either, since opening it may block for ever.
    pipe: Option<String<A>>,
}

// Returns whether a name that could not be held, by this fault, leads to a pipe.
fn is_pipe<R: System>(looks: &Looks<'_, R>, name: &str, fault: DiskFault) -> bool {
    let may_be = matches!(
        fault,
        DiskFault::Failed(Cause::NotAPlainFile | Cause::NoName)
    );
    may_be && looks.come_to(name).is_ok_and(|found| found.is_pipe())
}

impl<A: Allocator> NotHeld<A> {
    fn of<R: System<A = A>>(looks: &Looks<'_, R>, name: &str, why: DiskFault) -> NotHeld<A> {
        if !is_pipe(looks, name, why) {
            return NotHeld { why, pipe: None };
        }
        let pipe = String::from_str(looks.alloc(), name).ok();
        let why = if pipe.is_some() {
            why
        } else {
            DiskFault::NoMemory
        };
        NotHeld { why, pipe }
    }

    /// Loads the file of that name, which is not held.
    pub fn load<R: System, B: Allocator>(
        &self,
        looks: &Looks<'_, R>,
        alloc: B,
        name: &str,
        limit: u32,
    ) -> Result<(Found, Vec<u8, B>), ReadFault>
        ensures { IfOk result (λ read. vec_len read.1 ≤ limit) }
    {
        match (&self.pipe, self.why) {
            (Some(pipe), _) if pipe.as_str() == name => {
                Err(ReadFault::Disk(DiskFault::Failed(Cause::NotAPlainFile)))
            }
            (_, DiskFault::NoMemory) => Err(ReadFault::Disk(DiskFault::NoMemory)),
            _ => read_file(looks, alloc, name, limit),
        }
    }
}

// Holds the file that `name` leads to, or a name that is free. Waits while another program holds it.
fn hold<R: System>(calls: &Calls<'_, R>, name: &str, way: Way) -> Result<Held<R>, DiskFault>
    ensures { IfOk result (λ held. name_of held ≡ name.now) }
{
    let target = find_target(calls.looks(), name)?;
    match way {
        Way::Replace => Ok(Held::Replacing(Replacing::take(calls, target)?)),
        Way::InPlace => {
            let mut deadline = Deadline::new(calls.looks());
            Ok(Held::InPlace(Old::hold(calls, target, way, &mut deadline)?))
        }
    }
}

/// Saves a file that is not held, and returns what that left behind.
pub fn save_anew<R: System>(
    calls: &mut Calls<'_, R>,
    name: &str,
    bytes: &[u8],
    way: Way,
) -> Result<Option<Aftermath>, Unsaved>
    ensures ok { OnOk result (entries_of calls.new.saved ≡ (name.now, bytes.now) ∷ entries_of calls.old.saved) }
    ensures err { OnErr result (entries_of calls.new.saved ≡ entries_of calls.old.saved) }
    ensures done { IfOk result IsDone }
    ensures refused { IfErr result IsRefused }
{
    hold(calls, name, way)?.write(calls, bytes)
}

impl<R: System> Held<R> {
    /// Holds the file of that name, or returns why it cannot be held.
    pub fn take(calls: &Calls<'_, R>, name: &str, way: Way) -> Result<Held<R>, NotHeld<R::A>>
        ensures { IfOk result (λ held. name_of held ≡ name.now) }
    {
        hold(calls, name, way).map_err(|why| NotHeld::of(calls.looks(), name, why))
    }

    /// Fails if the file could not be saved, as far as that is known.
    pub fn check(&self) -> Result<(), DiskFault> {
        let Held::InPlace(old) = self else {
            return Ok(());
        };
        match &old.handle {
            Some(file) => file.refused().map_or(Ok(()), Err),
            None => Err(DiskFault::Failed(Cause::NoFile)),
        }
    }

    /// Loads the file of that name: through the hold, if it was taken by the same name.
    pub fn load<A: Allocator>(
        &mut self,
        calls: &Calls<'_, R>,
        alloc: A,
        name: &str,
        limit: u32,
    ) -> Result<(Found, Vec<u8, A>), ReadFault>
        ensures within { IfOk result (λ read. vec_len read.1 ≤ limit) }
        ensures name { name_of self.new ≡ name_of self.old }
        ensures loaded { name_of self.old ≡ name.now → IfOk result (λ read. HasLoaded read.0 read.1.items self.new) }
    {
        match self {
            Held::Replacing(hold) if hold.old.is_of(name) => hold.old.load(calls, alloc, limit),
            Held::InPlace(old) if old.is_of(name) => old.load(calls, alloc, limit),
            _ => read_file(calls.looks(), alloc, name, limit),
        }
    }

    // Saves the file that is held, and returns what that left behind. Ends the hold.
    fn write(self, calls: &mut Calls<'_, R>, bytes: &[u8]) -> Result<Option<Aftermath>, Unsaved>
        ensures ok { OnOk result (entries_of calls.new.saved ≡ (name_of self, bytes.now) ∷ entries_of calls.old.saved) }
        ensures err { OnErr result (entries_of calls.new.saved ≡ entries_of calls.old.saved) }
        ensures done { IfOk result IsDone }
        ensures refused { IfErr result IsRefused }
    {
        match self {
            Held::Replacing(hold) => {
                Ok(hold.save(calls, bytes)?.then_some(Aftermath::LostChange))
            }
            Held::InPlace(old) => save_in_place(calls, old, bytes),
        }
    }

    fn is_of(&self, name: &str) -> bool
        ensures { IsTrue result ↔ (name_of self.now ≡ name.now) }
    {
        match self {
            Held::Replacing(hold) => hold.old.is_of(name),
            Held::InPlace(old) => old.is_of(name),
        }
    }

    /// Saves the file of that name, and returns what that left behind. If the hold is of another name, releases it and
    /// takes one now. Ends the hold.
    pub fn save(
        self,
        calls: &mut Calls<'_, R>,
        name: &str,
        bytes: &[u8],
        way: Way,
    ) -> Result<Option<Aftermath>, Unsaved>
        ensures ok { OnOk result (entries_of calls.new.saved ≡ (name.now, bytes.now) ∷ entries_of calls.old.saved) }
        ensures err { OnErr result (entries_of calls.new.saved ≡ entries_of calls.old.saved) }
        ensures done { IfOk result IsDone }
        ensures refused { IfErr result IsRefused }
    {
        if self.is_of(name) {
            return self.write(calls, bytes);
        }
        self.release(calls);
        save_anew(calls, name, bytes, way)
    }

    pub fn release(self, calls: &Calls<'_, R>) {
        if let Held::Replacing(hold) = self {
            hold.release(calls);
        }
    }
}
