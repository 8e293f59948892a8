//! A save that replaces the old file by a new one.

ghost use Rattle.std.specs.Prelude.{◌≡◌, ◌∷◌, IfOk, OnOk, OnErr, string_bytes};
ghost use Rattle.std.specs.Path.{path_buf_bytes};
ghost use Rattle.krb_files.specs.Log.{entries_of};
ghost use Rattle.krb_disk.specs.Looks.{IsPlainOrNone};
ghost use Rattle.krb_disk.specs.NewFile.{IsHeldAt, new_path};
ghost use Rattle.krb_disk.specs.Stages.{snapshot_file};
ghost use Rattle.krb_disk.specs.declared.stage.Stage.TheVariants.{Synced, Quiet, Same};

use crate::calls::{Calls, NewFile};
use crate::deadline::{Deadline, MOST_TRIES};
use crate::fault::DiskFault;
use crate::new_file::{Attempt, make_locked, remove_own};
use crate::old::{Old, Way};
use crate::open_file::System;
use crate::save::fill;
use crate::target::Target;
use krb_files::Cause;
use std::rt;

/// A file that is held to be replaced. The new file beside it, `NAME.krbfile`, was created and locked.
#[derive(Drop)]
pub struct Replacing<R: rt::Files + Alloc> {
    pub old: Old<R>,
    new_file: NewFile<String<R::A>, R::File>,
    ghost is_held: { IsHeldAt (new_path (path_buf_bytes old.target.path)) new_file },
}

// Creates and locks the new file, after waiting for any other program that has it.
fn make_new_file<R: System>(
    calls: &Calls<'_, R>,
    path: &str,
    owner: Option<u32>,
    deadline: &mut Deadline,
) -> Result<NewFile<String<R::A>, R::File>, DiskFault>
    ensures { IfOk result (λ file. IsHeldAt path.now file) }
{
    for _ in 0..=MOST_TRIES {
        match make_locked(calls, path, owner, deadline)? {
            Attempt::Locked(file) => return Ok(file),
            Attempt::InTheWay if deadline.is_short(calls.looks()) => {
                return Err(DiskFault::Failed(Cause::InTheWay));
            }
            Attempt::InTheWay | Attempt::InUse => deadline.pause(calls.looks())?,
        }
    }
    Err(DiskFault::Failed(Cause::InUse))
}

// Fails unless the new file is still ours and the old one is still as it was seen.
fn compare<R: System>(
    calls: &Calls<'_, R>,
    new_file: &mut NewFile<String<R::A>, R::File>,
    old: &Old<R>,
) -> Result<(), DiskFault>
    requires quiet { new_file.old.stage ≡ Quiet (snapshot_file old.now.snapshot) }
    requires beside { string_bytes new_file.old.path ≡ new_path (path_buf_bytes old.now.target.path) }
    ensures stage { OnOk result (new_file.new ≡ record new_file.old { stage = Same (snapshot_file old.now.snapshot) }) }
    ensures plain { OnOk result (IsPlainOrNone (snapshot_file old.now.snapshot)) }
{
    if calls.is_at_path(new_file)? && calls.compare(new_file, old.target.path(), &old.snapshot)? {
        Ok(())
    } else {
        Err(DiskFault::Failed(Cause::Changed))
    }
}

// Fails if another program keeps the file locked to change it, changed it since it was seen, or replaced or removed the
// new file. The old file is compared last, as a change that another program makes before it is not lost.
fn check<R: System>(
    calls: &Calls<'_, R>,
    new_file: &mut NewFile<String<R::A>, R::File>,
    old: &Old<R>,
) -> Result<(), DiskFault>
    requires synced { new_file.old.stage ≡ Synced (snapshot_file old.now.snapshot) }
    requires beside { string_bytes new_file.old.path ≡ new_path (path_buf_bytes old.now.target.path) }
    ensures stage { OnOk result (new_file.new ≡ record new_file.old { stage = Same (snapshot_file old.now.snapshot) }) }
    ensures plain { OnOk result (IsPlainOrNone (snapshot_file old.now.snapshot)) }
{
    let mut deadline = Deadline::new(calls.looks());
    for _ in 0..=MOST_TRIES {
        if calls.watch(new_file, old.listed(), &deadline)? {
            return compare(calls, new_file, old);
        }
        deadline.pause(calls.looks())?;
    }
    Err(DiskFault::Failed(Cause::InUse))
}

fn replace<R: System>(
    calls: &mut Calls<'_, R>,
    new_file: &mut NewFile<String<R::A>, R::File>,
    old: &Old<R>,
    bytes: &[u8],
) -> Result<(), DiskFault>
    requires { IsHeldAt (new_path (path_buf_bytes old.now.target.path)) new_file.old }
    ensures ok { OnOk result (entries_of calls.new.saved
        ≡ (string_bytes old.now.target.name, bytes.now) ∷ entries_of calls.old.saved) }
    ensures err { OnErr result (entries_of calls.new.saved ≡ entries_of calls.old.saved) }
{
    fill(calls, new_file, bytes, old.snapshot.file())?;
    check(calls, new_file, old)?;
    calls.rename(new_file, &old.target, bytes)
}

impl<R: System> Replacing<R> {
    /// Holds the file of that target, or its name if that is free. Waits while another program holds it.
    pub fn take(calls: &Calls<'_, R>, target: Target<R::A>) -> Result<Replacing<R>, DiskFault>
        ensures { IfOk result (λ hold. hold.old.target ≡ target) }
    {
        let mut deadline = Deadline::new(calls.looks());
        let new_path = target.new_path(calls.looks().alloc())?;
        let mut new_file = make_new_file(calls, &new_path, target.owner(), &mut deadline)?;
        match Old::hold(calls, target, Way::Replace, &mut deadline) {
            Ok(old) => Ok(Replacing { old, new_file }),
            Err(fault) => {
                let _ = remove_own(calls, &mut new_file);
                Err(fault)
            }
        }
    }

    /// Replaces the file, or fails and leaves it unchanged. Returns whether a change was lost that another program made
    /// to the old file after it was compared. Ends the hold.
    pub fn save(self, calls: &mut Calls<'_, R>, bytes: &[u8]) -> Result<bool, DiskFault>
        ensures ok { OnOk result (entries_of calls.new.saved
            ≡ (string_bytes self.old.target.name, bytes.now) ∷ entries_of calls.old.saved) }
        ensures err { OnErr result (entries_of calls.new.saved ≡ entries_of calls.old.saved) }
    {
        let Replacing {
            mut old,
            mut new_file,
        } = self;
        match replace(calls, &mut new_file, &old, bytes) {
            Ok(()) => {
                let _ = calls.sync_folder(old.target.folder());
                Ok(old.has_changed(calls))
            }
            Err(fault) => {
                let _ = remove_own(calls, &mut new_file);
                Err(fault)
            }
        }
    }

    /// Ends the hold, so that other programs may change the file.
    pub fn release(self, calls: &Calls<'_, R>) {
        let Replacing { mut new_file, .. } = self;
        let _ = remove_own(calls, &mut new_file);
    }
}
