//! The system calls that change a file, or decide whether it may be changed.

ghost use Rattle.std.specs.Prelude.{◌≡◌, [], IfOk, IfSome, OnOk, IsTrue, string_bytes};
ghost use Rattle.std.specs.Io.KnownBytes.{Appends};
ghost use Rattle.krb_files.specs.Log.{entries_of};
ghost use Rattle.krb_disk.specs.NewFile.{IsFilled};
ghost use Rattle.krb_disk.specs.Stages.{private_mode, IsDueMode, IsFound, stood, synced};
ghost use Rattle.krb_disk.specs.declared.stage.Stage.TheVariants.{Made, Locked, Agreed, Held, Written, Examined, Permitted};

mod bring_back;
mod in_place;
mod old;
mod old_file;
pub mod stale_file;

use crate::fault::DiskFault;
use crate::looks::device::Listed;
use crate::looks::{Found, Looks, is_same_file};
use crate::noted::Noted;
use crate::open_file::{HeldFile, System, is_refused};
use crate::stage::{PlaceStage, Stage};
use krb_files::{Cause, Log, save};
use std::fs::{self, OpenFile, OpenOptions, Permissions};
use std::io::{self, ErrorKind};
use std::os::unix::fs::{OpenOptionsExt, PermissionsExt};

/// The system calls of a save: nothing else in this crate can change a file, and only `rename` records a save.
#[derive(Drop)]
pub struct Calls<'a, R> {
    rt: &'a R,
    looks: Looks<'a, R>,
    /// The file loaded last: a save does not take it for a stale one.
    loaded: Option<Found>,
    /// The completed saves.
    saved: Option<Log>,
}

/// The new file. Only these calls reach it.
#[derive(Drop)]
pub struct NewFile<S, F> {
    /// The path at which it was made.
    path: S,
    file: Noted<F>,
    stage: Stage,
    /// What was written to it.
    written: Option<Log>,
}

/// The old file, open. Only these calls reach it.
#[derive(Drop)]
pub struct OldFile<F> {
    file: F,
    /// Why it cannot be saved in place, if that is known.
    refused: Option<DiskFault>,
    listed: Listed,
    /// True once it is locked, or where it cannot be.
    is_guarded: bool,
}

/// The old file while it is saved in place. Only these calls reach it.
#[derive(Drop)]
pub struct PlaceFile<F> {
    file: F,
    listed: Listed,
    stage: PlaceStage,
}

fn describe<F: OpenFile>(file: &F) -> io::Result<Found> {
    Ok(Found::of(&file.metadata()?))
}

// Returns whether `path` still names an open file.
fn is_at_path<R: System>(looks: &Looks<'_, R>, path: &str, file: &R::File) -> io::Result<bool> {
    let opened = describe(file)?;
    let named = looks.look(path)?;
    Ok(named.is_some_and(|named| is_same_file(&named, &opened)))
}

impl<'a, R> Calls<'a, R> {
    pub fn new(rt: &'a R) -> Calls<'a, R>
        ensures { entries_of result.saved ≡ [] }
    {
        Calls {
            rt,
            looks: Looks::new(rt),
            loaded: None,
            saved: None,
        }
    }

    pub fn note_loaded(&mut self, found: Found)
        ensures { self.new.saved ≡ self.old.saved }
    {
        self.loaded = Some(found);
    }

    /// Returns whether that is the file loaded last.
    pub fn spares(&self, found: &Found) -> bool {
        self.loaded
            .is_some_and(|loaded| is_same_file(&loaded, found))
    }

    pub fn looks(&self) -> &Looks<'a, R> {
        &self.looks
    }
}

impl<R: System> Calls<'_, R> {
    /// Creates a private file at `path`. Fails if something is there.
    pub fn make(&self, path: &str, mode: u32) -> io::Result<NewFile<String<R::A>, R::File>>
        requires private { mode ≡ private_mode }
        ensures path { IfOk result (λ file. string_bytes file.path ≡ path.now) }
        ensures stage { IfOk result (λ file. file.stage ≡ Made) }
    {
        let path = String::from_str(self.rt.alloc(), path)?;
        let mut options = OpenOptions::new();
        options.write(true).create_new(true).mode(mode);
        let file = options.open(self.rt, &path)?;
        Ok(NewFile {
            path,
            file: Noted::new(file),
            stage: Stage::Made,
            written: None,
        })
    }

    pub fn is_at_path(&self, file: &mut NewFile<String<R::A>, R::File>) -> io::Result<bool>
        ensures stage { IfOk result (λ is. IsTrue is
            → file.new ≡ record file.old { stage = stood file.old.stage }) }
        ensures found { IfOk result (λ is. IsTrue is → IsFound file.new.stage) }
    {
        let is_at_path = is_at_path(&self.looks, &file.path, &file.file.file)?;
        file.stage = match (is_at_path, file.stage) {
            (true, Stage::Locked) => Stage::Agreed,
            (true, Stage::Quiet(old)) => Stage::Ours(old),
            (true, _) => Stage::Ended,
            (false, _) => Stage::Lost,
        };
        Ok(is_at_path)
    }

    /// Replaces the handle of the new file with a duplicate, which is never a standard stream, even if one is closed.
    pub fn double(&self, file: &mut NewFile<String<R::A>, R::File>) -> io::Result<()>
        requires agreed { file.old.stage ≡ Agreed }
        ensures stage { OnOk result (file.new.stage ≡ Held) }
        ensures path { OnOk result (file.new.path ≡ file.old.path) }
    {
        file.stage = Stage::Lost;
        file.file = Noted::new(file.file.file.try_clone()?);
        file.stage = Stage::Held;
        Ok(())
    }

    pub fn remove(&self, file: &NewFile<String<R::A>, R::File>) -> io::Result<()>
        requires found { IsFound file.now.stage }
    {
        fs::remove_file(self.rt, &file.path)
    }

    pub fn write(&self, new: &mut NewFile<String<R::A>, R::File>, bytes: &[u8]) -> io::Result<()>
        requires held { new.old.stage ≡ Held }
        ensures written { OnOk result (Appends (R.File.contents new.old.file.file) (R.File.contents new.new.file.file) bytes.now) }
        ensures filled { OnOk result (IsFilled (string_bytes new.old.path) bytes.now new.new) }
        ensures stage { OnOk result (new.new.stage ≡ Written) }
    {
        new.stage = Stage::Lost;
        if save(&mut new.file, bytes).is_err() {
            return Err(new.file.error());
        }
        new.stage = Stage::Written;
        new.written = Some(Log::with(&None, new.path.as_bytes(), bytes));
        Ok(())
    }

    pub fn stat(&self, file: &mut NewFile<String<R::A>, R::File>) -> io::Result<Found>
        requires written { file.old.stage ≡ Written }
        ensures { IfOk result (λ found. file.new ≡ record file.old { stage = Examined found }) }
    {
        let found = describe(&file.file.file)?;
        file.stage = Stage::Examined(found);
        Ok(found)
    }

    /// Sets the mode of the new file: the one due when it replaces the file `old`, or none.
    pub fn permit(
        &self,
        file: &mut NewFile<String<R::A>, R::File>,
        old: Option<Found>,
        mode: u32,
    ) -> io::Result<()>
        requires due { IsDueMode old file.old.stage mode }
        ensures { OnOk result (file.new ≡ record file.old { stage = Permitted old }) }
    {
        file.stage = Stage::Lost;
        file.file
            .file
            .set_permissions(Permissions::from_mode(mode))?;
        file.stage = Stage::Permitted(old);
        Ok(())
    }

    /// Syncs the new file, so that it survives a crash.
    pub fn sync(&self, file: &mut NewFile<String<R::A>, R::File>) -> io::Result<()>
        ensures { OnOk result (file.new ≡ record file.old { stage = synced file.old.stage }) }
    {
        let synced = match file.stage {
            Stage::Permitted(old) => Stage::Synced(old),
            _ => Stage::Lost,
        };
        file.stage = Stage::Lost;
        file.file.file.sync_all()?;
        file.stage = synced;
        Ok(())
    }

    /// Locks the new file and returns whether it was free. On a file system without locks, having made it is enough.
    pub fn lock(&self, file: &mut NewFile<String<R::A>, R::File>) -> io::Result<bool>
        requires made { file.old.stage ≡ Made }
        ensures { IfOk result (λ is. IsTrue is → file.new ≡ record file.old { stage = Locked }) }
    {
        let is_locked = match file.file.file.take_lock() {
            Err(error) if error.kind() == ErrorKind::Unsupported => true,
            taken => taken?,
        };
        if is_locked {
            file.stage = Stage::Locked;
        }
        Ok(is_locked)
    }

    /// Sets the group of the new file to that of the old one, and the owner too if `owner` is given. Returns whether
    /// that was allowed.
    pub fn own(
        &self,
        file: &NewFile<String<R::A>, R::File>,
        _old: &Found,
        owner: Option<u32>,
        group: u32,
    ) -> Result<bool, DiskFault>
        requires written { file.now.stage ≡ Written }
        requires owner { IfSome owner (λ number. number ≡ _old.now.owner) }
        requires group { group ≡ _old.now.group }
    {
        match file.file.file.set_owner(owner, Some(group)) {
            Ok(()) => Ok(true),
            Err(error) if is_refused(&error) => Ok(false),
            Err(_) => Err(DiskFault::Failed(Cause::OwnerNotKept)),
        }
    }
}
