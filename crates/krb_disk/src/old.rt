//! The old file of a save: what is known of it from the hold on.

ghost use Rattle.std.specs.Prelude.{◌≡◌, ◌≤◌, ◌↔◌, IfOk, IfSome, IsErrOf, IsTrue, string_bytes, vec_len};
ghost use Rattle.krb_disk.specs.Stages.{IsGuarded, IsLoaded};
ghost use Rattle.krb_disk.specs.declared.fault.ReadFault.TheVariants as ReadFault;
ghost use Rattle.krb_disk.specs.declared.snapshot.Snapshot.TheVariants.{Nothing};

use crate::calls::{Calls, OldFile};
use crate::deadline::{Deadline, MOST_TRIES};
use crate::fault::{DiskFault, ReadFault};
use crate::looks::Found;
use crate::looks::device::Listed;
use crate::looks::locks::LockKind;
use crate::open_file::System;
use crate::snapshot::Snapshot;
use crate::target::Target;
use krb_files::Cause;
use krb_wire::USUAL_LIMIT;
use std::alloc::Allocator;
use std::io::ErrorKind;
use std::rt;
use wiping::Wiping;

/// The old file of a save: of the programs that hold a file before they change it, only this one may change it.
#[derive(Drop)]
pub struct Old<R: rt::Files + Alloc> {
    pub target: Target<R::A>,
    /// Its handle, if the file is there.
    pub handle: Option<OldFile<R::File>>,
    pub snapshot: Snapshot<R::A>,
}

/// How a file is to be saved: by a new file, or in place.
#[derive(Clone, Copy, PartialEq, Eq)]
pub enum Way {
    Replace,
    InPlace,
}

impl Way {
    // Returns which record locks are waited for: a program that reads under a lock is to see no part of a save.
    fn awaited(self) -> LockKind {
        match self {
            Way::Replace => LockKind::Record,
            Way::InPlace => LockKind::AnyRecord,
        }
    }
}

// The handle of a file that is held, and what was found of it.
#[derive(Drop)]
struct Opened<F> {
    handle: Option<OldFile<F>>,
    found: Option<Found>,
}

// Locks the open file. Returns nothing if another program has it, or replaced it.
fn lock_opened<R: System>(
    calls: &Calls<'_, R>,
    path: &str,
    way: Way,
    mut file: OldFile<R::File>,
    deadline: &Deadline,
) -> Result<Option<Opened<R::File>>, DiskFault>
    ensures { IfOk result (λ tried. IfSome tried (λ opened. IfSome opened.handle IsGuarded)) }
{
    if !calls.lock_old(&mut file, path) {
        return Ok(None);
    }
    let Some(found) = calls.find_old(&file, path)? else {
        return Ok(None);
    };
    calls.find_listed(&mut file)?;
    if !calls.is_quiet(&found, file.listed(), way.awaited(), deadline)? {
        return Ok(None);
    }
    Ok(Some(Opened {
        handle: Some(file),
        found: Some(found),
    }))
}

// Opens and locks the plain file at `path`, if one is there. Returns nothing if another program has it.
fn try_old<R: System>(
    calls: &Calls<'_, R>,
    path: &str,
    way: Way,
    deadline: &Deadline,
) -> Result<Option<Opened<R::File>>, DiskFault>
    ensures { IfOk result (λ tried. IfSome tried (λ opened. IfSome opened.handle IsGuarded)) }
{
    let Some(found) = calls.looks().look(path)? else {
        return Ok(Some(Opened {
            handle: None,
            found: None,
        }));
    };
    if !found.is_file() {
        return Err(DiskFault::Failed(Cause::NotAPlainFile));
    }
    match calls.open_old(path, way == Way::InPlace) {
        Ok(file) => lock_opened(calls, path, way, file, deadline),
        Err(error) if error.kind() == ErrorKind::NotFound => Ok(None),
        Err(error) => Err(DiskFault::from(error)),
    }
}

impl<R: System> Old<R> {
    /// Holds the file of that target. Waits while another program has it.
    pub fn hold(
        calls: &Calls<'_, R>,
        target: Target<R::A>,
        way: Way,
        deadline: &mut Deadline,
    ) -> Result<Old<R>, DiskFault>
        ensures target { IfOk result (λ old. old.target ≡ target) }
        ensures guarded { IfOk result (λ old. IfSome old.handle IsGuarded) }
    {
        for _ in 0..=MOST_TRIES {
            if let Some(opened) = try_old(calls, target.path(), way, deadline)? {
                return Ok(Old {
                    target,
                    handle: opened.handle,
                    snapshot: Snapshot::of(opened.found),
                });
            }
            deadline.pause(calls.looks())?;
        }
        Err(DiskFault::Failed(Cause::InUse))
    }

    pub fn is_of(&self, name: &str) -> bool
        ensures { IsTrue result ↔ (string_bytes self.now.target.name ≡ name.now) }
    {
        self.target.name() == name
    }

    fn read<A: Allocator>(
        &mut self,
        calls: &Calls<'_, R>,
        alloc: A,
        limit: u32,
    ) -> Result<(Found, Vec<u8, A>), ReadFault>
        ensures within { IfOk result (λ read. vec_len read.1 ≤ limit) }
        ensures target { self.new.target ≡ self.old.target }
        ensures snapshot { self.new.snapshot ≡ self.old.snapshot }
    {
        match &mut self.handle {
            Some(file) => calls.load(alloc, file, limit),
            None => Err(ReadFault::Missing),
        }
    }

    /// Loads the file. From then on it is what was loaded that is compared before a save.
    pub fn load<A: Allocator>(
        &mut self,
        calls: &Calls<'_, R>,
        alloc: A,
        limit: u32,
    ) -> Result<(Found, Vec<u8, A>), ReadFault>
        ensures within { IfOk result (λ read. vec_len read.1 ≤ limit) }
        ensures target { self.new.target ≡ self.old.target }
        ensures loaded { IfOk result (λ read. IsLoaded read.0 read.1.items self.new.snapshot) }
        ensures missing { IsErrOf result ReadFault.Missing → self.new.snapshot ≡ Nothing }
    {
        match self.read(calls, alloc, limit) {
            Ok((found, bytes)) => {
                self.snapshot = Snapshot::loaded(calls.looks().alloc(), found, &bytes)?;
                Ok((found, bytes))
            }
            Err(ReadFault::Missing) => {
                self.snapshot = Snapshot::Nothing;
                Err(ReadFault::Missing)
            }
            Err(fault) => Err(fault),
        }
    }

    /// Loads a file that was held only, so that its bytes are known.
    pub fn load_anew(&mut self, calls: &Calls<'_, R>) -> Result<(), DiskFault>
        ensures { self.new.target ≡ self.old.target }
    {
        let Snapshot::File(_) = self.snapshot else {
            return Ok(());
        };
        match self.read(calls, Wiping::new(calls.looks().alloc()), USUAL_LIMIT) {
            Ok((found, bytes)) => {
                self.snapshot = Snapshot::Loaded(found, bytes);
                Ok(())
            }
            Err(ReadFault::Disk(fault)) => Err(fault),
            Err(ReadFault::Missing) => Err(DiskFault::Failed(Cause::NoFile)),
            Err(ReadFault::TooLarge) => Err(DiskFault::Failed(Cause::FileTooLarge)),
        }
    }

    pub fn listed(&self) -> Listed {
        match &self.handle {
            Some(file) => file.listed(),
            None => Listed::unknown(),
        }
    }

    /// Returns whether the file, which has no name any more, has other bytes than those that were compared.
    pub fn has_changed(&mut self, calls: &Calls<'_, R>) -> bool {
        match (&mut self.handle, &self.snapshot) {
            (Some(file), Snapshot::Loaded(_, bytes)) => calls.has_changed(file, bytes),
            _ => false,
        }
    }
}
