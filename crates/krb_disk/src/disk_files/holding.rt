//! The hold of a file on a disk, and what goes through it.

ghost use Rattle.std.specs.Prelude.{◌≡◌, ◌≤◌, ◌∷◌, Some, is_ok, IfOk, OnOk, OnErr, IfErr, IsTrue, vec_len};
ghost use Rattle.krb_disk.specs.Aftermaths.{IsDone, IsRefused};
ghost use Rattle.krb_disk.specs.DiskFiles.{left};
ghost use Rattle.krb_disk.specs.Holding.{name_of};
ghost use Rattle.krb_disk.specs.Looks.{IsPlain};

use super::DiskFiles;
use crate::calls::Calls;
use crate::fault::{DiskFault, ReadFault, Unsaved};
use crate::held::{Held, NotHeld, save_anew};
use crate::looks::Found;
use crate::looks::text::check_len;
use crate::open_file::System;
use crate::read::{read_file, refuse_others};
use crate::target::new_path_of;
use krb_files::{Aftermath, Cause, Log};
use std::alloc::Allocator;

impl<R: System> DiskFiles<'_, R> {
    /// Reads a file: through the hold, if one is held. If only plain files are loaded it is looked at before it is opened,
    /// and again afterwards.
    pub(super) fn read<A: Allocator>(
        &mut self,
        alloc: A,
        name: &str,
        limit: u32,
    ) -> Result<(Found, Vec<u8, A>), ReadFault>
        ensures within { IfOk result (λ read. vec_len read.1 ≤ limit) }
        ensures plain { IsTrue self.old.only_plain → IfOk result (λ read. IsPlain read.0) }
        ensures same { self.new ≡ self.old }
    {
        let looks = self.calls.looks();
        if self.only_plain {
            refuse_others(looks.node(name))?;
        }
        let (found, bytes) = match &mut self.hold {
            Some(Ok(held)) => held.load(&self.calls, alloc, name, limit),
            Some(Err(not_held)) => not_held.load(looks, alloc, name, limit),
            None => read_file(looks, alloc, name, limit),
        }?;
        if self.only_plain {
            refuse_others(found.node())?;
        }
        Ok((found, bytes))
    }

    /// Keeps a hold until the file is saved or released, or why it could not be had.
    pub(super) fn keep(&mut self, name: &str, hold: Result<Held<R>, NotHeld<R::A>>)
        requires { IfOk hold (λ held. name_of held ≡ name.now) }
        ensures { self.new ≡ record self.old { held = Some name.now; is_held = is_ok hold } }
    {
        self.held_name = Some(Log::with(&None, name.as_bytes(), &[]));
        self.hold = Some(hold);
    }

    /// Takes the hold, or why it could not be had, so that none is left.
    pub(super) fn take_hold(&mut self) -> Result<Option<Held<R>>, DiskFault>
        ensures { self.new ≡ left self.old }
    {
        self.held_name = None;
        match self.hold.take() {
            Some(Ok(held)) => Ok(Some(held)),
            Some(Err(not_held)) => Err(not_held.why),
            None => Ok(None),
        }
    }

    /// Saves a file, which is held before if it was not. Returns what that left behind.
    pub(super) fn save_held(
        &mut self,
        name: &str,
        bytes: &[u8],
    ) -> Result<Option<Aftermath>, Unsaved>
        ensures ok { OnOk result (self.new
            ≡ record (left self.old) { saved = (name.now, bytes.now) ∷ self.old.saved }) }
        ensures err { OnErr result (self.new ≡ left self.old) }
        ensures done { IfOk result IsDone }
        ensures refused { IfErr result IsRefused }
    {
        let held = self.take_hold()?;
        if let Err(fault) = check_len(self.calls.looks(), bytes.len()) {
            if let Some(held) = held {
                held.release(&self.calls);
            }
            return Err(Unsaved::from(fault));
        }
        match held {
            Some(held) => held.save(&mut self.calls, name, bytes, self.way),
            None => save_anew(&mut self.calls, name, bytes, self.way),
        }
    }

    /// Notes what is in the way of a save that was refused by this fault.
    pub(super) fn note_in_the_way(&mut self, name: &str, fault: DiskFault)
        ensures { self.new ≡ self.old }
    {
        self.in_the_way = match fault {
            DiskFault::Failed(Cause::InTheWay) => new_path_of(self.calls.looks(), name),
            _ => None,
        };
    }
}
