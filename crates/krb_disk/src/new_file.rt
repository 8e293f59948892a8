//! The new file beside one to be saved. The program that created and locked it may change that one.

ghost use Rattle.std.specs.Prelude.{◌≡◌, true, IfOk, IsTrue, string_bytes};
ghost use Rattle.krb_disk.specs.NewFile.{HoldsAt, IsHeldAt};
ghost use Rattle.krb_disk.specs.declared.stage.Stage.TheVariants.{Made};

use crate::calls::stale_file::StaleFile;
use crate::calls::{Calls, NewFile};
use crate::deadline::Deadline;
use crate::fault::DiskFault;
use crate::looks::Found;
use crate::looks::device::{Listed, Mounted};
use crate::looks::locks::{LockKind, is_locked};
use crate::looks::users::Users;
use crate::open_file::System;
use std::io::{self, ErrorKind};

/// The mode of a file that did not exist before, and of any new file while it is written.
pub const PRIVATE: u32 = 0o600;

/// The outcome of a try to create and lock the new file.
#[derive(Drop)]
pub enum Attempt<F> {
    Locked(F),
    /// Another program has it or has just released it, or a stale file was removed: try again.
    InUse,
    /// Something that is not ours is there.
    InTheWay,
}

pub fn remove_own<R: System>(
    calls: &Calls<'_, R>,
    file: &mut NewFile<String<R::A>, R::File>,
) -> io::Result<()> {
    if calls.is_at_path(file)? {
        calls.remove(file)?;
    }
    Ok(())
}

// Locks a file that was just created and duplicates its handle. Returns whether it is held then.
fn lock_new<R: System>(
    calls: &Calls<'_, R>,
    file: &mut NewFile<String<R::A>, R::File>,
) -> io::Result<bool>
    requires { file.old.stage ≡ Made }
    ensures { IfOk result (λ is. IsTrue is → IsHeldAt (string_bytes file.old.path) file.new) }
{
    if !calls.lock(file)? || !calls.is_at_path(file)? {
        return Ok(false);
    }
    calls.double(file)?;
    Ok(true)
}

// Locks what may be a stale file, and removes it if a killed run left it. Returns whether to try again to create the
// new file.
fn clear_stale<R: System>(calls: &Calls<'_, R>, path: &str, users: Users) -> io::Result<bool> {
    let mut file = calls.open_stale_file(path)?;
    match calls.lock_stale_file(&mut file) {
        Err(error) if error.kind() == ErrorKind::Unsupported => return Ok(false),
        Err(error) => return Err(error),
        Ok(false) => return Ok(true),
        Ok(true) => {}
    }
    if calls.is_abandoned(&mut file, users)? {
        calls.remove_stale_file(&file, users)?;
    }
    Ok(true)
}

// Removes what a killed run left at the new file's path. Returns whether to try again to create the new file.
fn clear_place<R: System>(
    calls: &Calls<'_, R>,
    path: &str,
    found: &Found,
    owner: Option<u32>,
) -> io::Result<bool> {
    let users = Users::of_run(calls.looks(), owner);
    if !users.may_have_left(found) || calls.spares(found) {
        return Ok(false);
    }
    match clear_stale(calls, path, users) {
        Err(error) if error.kind() == ErrorKind::NotFound => Ok(true),
        Err(error) if error.kind() == ErrorKind::PermissionDenied => Ok(false),
        cleared => cleared,
    }
}

// Returns whether to try again to create the new file: its path is free or cleared, or what is there is locked. A file
// without a link was removed while it was looked at.
fn try_place<R: System>(
    calls: &Calls<'_, R>,
    path: &str,
    owner: Option<u32>,
    deadline: &Deadline,
) -> Result<bool, DiskFault> {
    let Some(found) = calls.looks().look(path)? else {
        return Ok(true);
    };
    if found.links == 0 {
        return Ok(true);
    }
    let place = Mounted::new(&found, Listed::unknown());
    Ok(
        clear_place(calls, path, &found, owner)?
            || is_locked(calls.looks(), &place, LockKind::WholeFile, deadline)?,
    )
}

/// Tries to create and lock the new file at `path`, beside a file of that owner.
pub fn make_locked<R: System>(
    calls: &Calls<'_, R>,
    path: &str,
    owner: Option<u32>,
    deadline: &Deadline,
) -> Result<Attempt<NewFile<String<R::A>, R::File>>, DiskFault>
    ensures { IfOk result (λ attempt. HoldsAt path.now attempt) }
{
    let mut file = match calls.make(path, PRIVATE) {
        Ok(file) => file,
        Err(error) if error.kind() != ErrorKind::AlreadyExists => {
            return Err(DiskFault::from(error));
        }
        Err(_) if try_place(calls, path, owner, deadline)? => return Ok(Attempt::InUse),
        Err(_) => return Ok(Attempt::InTheWay),
    };
    match lock_new(calls, &mut file) {
        Ok(true) => Ok(Attempt::Locked(file)),
        Ok(false) => Ok(Attempt::InUse),
        Err(error) => {
            let _ = remove_own(calls, &mut file);
            Err(DiskFault::from(error))
        }
    }
}
