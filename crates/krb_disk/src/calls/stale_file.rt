//! A stale file: what a killed run left at the path of a new file.

ghost use Rattle.std.specs.Prelude.{◌≡◌, true, IfOk, IsSomeAnd, IsTrue};
ghost use Rattle.krb_disk.specs.Looks.{MayBeLeft};

use super::{Calls, describe, is_at_path};
use crate::looks::Found;
use crate::looks::users::Users;
use crate::open_file::{HeldFile, System};
use std::fs::{self, OpenOptions};
use std::io::{self, ErrorKind};

/// An open file found at the path of the new file.
#[derive(Drop)]
pub struct StaleFile<'p, F> {
    path: &'p str,
    file: F,
    is_locked: bool,
    /// What the system reported of it.
    found: Option<Found>,
}

impl<R: System> Calls<'_, R> {
    /// Returns whether a killed run left the open file: it is not one that this run loaded.
    pub fn is_abandoned(&self, file: &mut StaleFile<'_, R::File>, users: Users) -> io::Result<bool>
        requires { file.old.is_locked ≡ true }
        ensures locked { file.new.is_locked ≡ true }
        ensures left { IfOk result (λ is. IsTrue is
            → IsSomeAnd file.new.found (MayBeLeft users.owner users.this)) }
    {
        let found = describe(&file.file)?;
        file.found = Some(found);
        Ok(
            users.may_have_left(&found)
                && !self.spares(&found)
                && is_at_path(&self.looks, file.path, &file.file)?,
        )
    }

    pub fn remove_stale_file(&self, file: &StaleFile<'_, R::File>, _users: Users) -> io::Result<()>
        requires locked { file.now.is_locked ≡ true }
        requires left { IsSomeAnd file.now.found (MayBeLeft _users.owner _users.this) }
    {
        fs::remove_file(self.rt, file.path)
    }

    /// Opens what is at the path of the new file: for writing, since the open then does not block on a pipe put there
    /// meanwhile, and some file systems lock no other handle; for reading if its owner may not write.
    pub fn open_stale_file<'p>(&self, path: &'p str) -> io::Result<StaleFile<'p, R::File>> {
        let file = match OpenOptions::new()
            .read(true)
            .write(true)
            .open(self.rt, path)
        {
            Err(error) if error.kind() == ErrorKind::PermissionDenied => fs::open(self.rt, path)?,
            opened => opened?,
        };
        Ok(StaleFile {
            path,
            file,
            is_locked: false,
            found: None,
        })
    }

    pub fn lock_stale_file(&self, file: &mut StaleFile<'_, R::File>) -> io::Result<bool>
        ensures { IfOk result (λ is. file.new.is_locked ≡ is) }
    {
        file.is_locked = file.file.take_lock()?;
        Ok(file.is_locked)
    }
}
