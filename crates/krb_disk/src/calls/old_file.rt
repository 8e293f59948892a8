//! The old file, open: its lock, and what is read of it.

ghost use Rattle.std.specs.Prelude.{◌≡◌, ◌≤◌, true, IfOk, vec_len};
ghost use Rattle.krb_disk.specs.declared.stage.PlaceStage.TheVariants.{Untouched};

use super::{Calls, OldFile, PlaceFile, describe};
use crate::fault::{DiskFault, ReadFault};
use crate::looks::device::Listed;
use crate::looks::listed::find_listed;
use crate::looks::{Found, is_same_file};
use crate::open_file::{HeldFile, System};
use crate::read::{has_just, read_open};
use crate::stage::PlaceStage;
use krb_files::Cause;
use std::alloc::Allocator;
use std::fs::{self, OpenFile, OpenOptions};
use std::io::{self, ErrorKind, Seek};

/// How many bytes may be added to a held file's image before it is reallocated.
const ROOM_TO_GROW: u64 = 131_072;

impl<F> OldFile<F> {
    fn new(file: F, refused: Option<DiskFault>) -> OldFile<F> {
        OldFile {
            file,
            refused,
            listed: Listed::unknown(),
            is_guarded: false,
        }
    }

    pub fn listed(&self) -> Listed {
        self.listed
    }

    pub fn refused(&self) -> Option<DiskFault> {
        self.refused
    }
}

impl<F: Drop> OldFile<F> {
    /// Returns the file to be saved in place, or why it cannot be.
    pub fn to_be_written(self) -> Result<PlaceFile<F>, DiskFault>
        ensures { IfOk result (λ file. file.stage ≡ Untouched) }
    {
        match self.refused {
            Some(fault) => Err(fault),
            None => Ok(PlaceFile {
                file: self.file,
                listed: self.listed,
                stage: PlaceStage::Untouched,
            }),
        }
    }
}

// Returns a handle that is no standard stream: the handle that was opened may be, where one is closed.
fn off_the_streams<F: OpenFile + HeldFile + Drop>(file: F) -> io::Result<F> {
    if file.number() > 2 {
        return Ok(file);
    }
    file.try_clone()
}

fn open_to_read<R: System>(rt: &R, path: &str) -> io::Result<R::File> {
    off_the_streams(fs::open(rt, path)?)
}

fn open_to_write<R: System>(rt: &R, path: &str) -> io::Result<R::File> {
    off_the_streams(OpenOptions::new().read(true).write(true).open(rt, path)?)
}

impl<R: System> Calls<'_, R> {
    /// Opens the old file, and so that it can be saved in place, if it is to be and that is allowed.
    pub fn open_old(&self, path: &str, in_place: bool) -> io::Result<OldFile<R::File>> {
        if !in_place {
            return Ok(OldFile::new(open_to_read(self.rt, path)?, None));
        }
        match open_to_write(self.rt, path) {
            Ok(file) => Ok(OldFile::new(file, None)),
            Err(error) => {
                let file = open_to_read(self.rt, path)?;
                Ok(OldFile::new(file, Some(DiskFault::from(error))))
            }
        }
    }

    /// Returns what the system reports of the old file, if it is still at `path`.
    pub fn find_old(&self, old: &OldFile<R::File>, path: &str) -> io::Result<Option<Found>> {
        let opened = describe(&old.file)?;
        match self.looks.look(path)? {
            Some(named) if is_same_file(&named, &opened) => Ok(Some(opened)),
            _ => Ok(None),
        }
    }

    /// Loads the old file, with spare capacity.
    pub fn load<A: Allocator>(
        &self,
        alloc: A,
        old: &mut OldFile<R::File>,
        limit: u32,
    ) -> Result<(Found, Vec<u8, A>), ReadFault>
        ensures { IfOk result (λ read. vec_len read.1 ≤ limit) }
    {
        old.file.rewind()?;
        let found = describe(&old.file)?;
        let bytes = read_open(
            alloc,
            &mut old.file,
            limit,
            found.size.saturating_add(ROOM_TO_GROW),
        )?;
        Ok((found, bytes))
    }

    /// Returns whether the old file, which has no name any more, now has other bytes than these.
    pub fn has_changed(&self, old: &mut OldFile<R::File>, bytes: &[u8]) -> bool {
        matches!(has_just(&mut old.file, bytes), Ok(false))
    }

    // Locks the old file by a handle that writes, for file systems that lock no other.
    fn lock_to_write(&self, path: &str) -> io::Result<Option<R::File>> {
        let file = open_to_write(self.rt, path)?;
        Ok(if file.take_lock()? { Some(file) } else { None })
    }

    /// Locks the old file and returns whether it was free. Where it cannot be locked it counts as free, and cannot be
    /// saved in place.
    pub fn lock_old(&self, old: &mut OldFile<R::File>, path: &str) -> bool
        ensures { old.new.is_guarded ≡ true }
    {
        old.is_guarded = true;
        if let Ok(is_free) = old.file.take_lock() {
            return is_free;
        }
        match self.lock_to_write(path) {
            Ok(Some(file)) => {
                old.file = file;
                true
            }
            Ok(None) => false,
            Err(_) => {
                old.refused = Some(old.refused.unwrap_or(DiskFault::Failed(Cause::NoLock)));
                true
            }
        }
    }

    pub fn find_listed(&self, old: &mut OldFile<R::File>) -> Result<(), DiskFault>
        ensures { old.new.is_guarded ≡ old.old.is_guarded }
    {
        old.listed = find_listed(&self.looks, old.file.number())?;
        Ok(())
    }
}
