//! The calls on the old file, and the rename that completes a save.

ghost use Rattle.std.specs.Prelude.{◌≡◌, [], ◌∷◌, IfOk, OnOk, OnErr, IsTrue, string_bytes};
ghost use Rattle.std.specs.Path.{path_buf_bytes};
ghost use Rattle.krb_files.specs.Log.{entries_of};
ghost use Rattle.krb_disk.specs.Looks.{IsPlainOrNone};
ghost use Rattle.krb_disk.specs.NewFile.{IsFilled, new_path};
ghost use Rattle.krb_disk.specs.Stages.{IsReady, WasReadAgain, watched, snapshot_file};
ghost use Rattle.krb_disk.specs.declared.stage.Stage.TheVariants.{Ours, Same};

use super::{Calls, NewFile};
use crate::deadline::Deadline;
use crate::fault::DiskFault;
use crate::looks::Found;
use crate::looks::device::{Listed, Mounted};
use crate::looks::locks::{LockKind, is_locked};
use crate::open_file::System;
use crate::snapshot::Snapshot;
use crate::stage::Stage;
use crate::target::Target;
use krb_files::{Cause, Log};
use std::fs::{self, OpenFile};
use std::io::{self, ErrorKind};

impl<R: System> Calls<'_, R> {
    /// Syncs a folder, so that the names in it survive a crash.
    pub fn sync_folder(&self, folder: &str) -> io::Result<()> {
        fs::open(self.rt, folder)?.sync_all()
    }

    /// Returns whether the old file is still as it was seen.
    pub fn compare(
        &self,
        file: &mut NewFile<String<R::A>, R::File>,
        path: &str,
        snapshot: &Snapshot<R::A>,
    ) -> Result<bool, DiskFault>
        requires ours { file.old.stage ≡ Ours (snapshot_file snapshot.now) }
        requires beside { string_bytes file.old.path ≡ new_path path.now }
        ensures same { IfOk result (λ is. IsTrue is
            → file.new ≡ record file.old { stage = Same (snapshot_file snapshot.now) }) }
        ensures plain { IfOk result (λ is. IsTrue is → IsPlainOrNone (snapshot_file snapshot.now)) }
        ensures bytes { IfOk result (λ is. IsTrue is → WasReadAgain R.File.remaining snapshot.now []) }
    {
        let is_same = snapshot.is_at(&self.looks, path, &[])?;
        file.stage = if is_same {
            Stage::Same(snapshot.file())
        } else {
            Stage::Lost
        };
        Ok(is_same)
    }

    /// Renames the new file, which has these bytes, over the old one. That completes the save.
    pub fn rename(
        &mut self,
        file: &mut NewFile<String<R::A>, R::File>,
        target: &Target<R::A>,
        bytes: &[u8],
    ) -> Result<(), DiskFault>
        requires ready { IsReady file.old.stage }
        requires filled { IsFilled (new_path (path_buf_bytes target.now.path)) bytes.now file.old }
        ensures ok { OnOk result (entries_of self.new.saved
            ≡ (string_bytes target.now.name, bytes.now) ∷ entries_of self.old.saved) }
        ensures err { OnErr result (entries_of self.new.saved ≡ entries_of self.old.saved) }
    {
        file.stage = Stage::Lost;
        match fs::rename(self.rt, &file.path, target.path()) {
            Err(error) if error.kind() == ErrorKind::ResourceBusy => {
                return Err(DiskFault::Failed(Cause::MountPoint));
            }
            renamed => renamed?,
        }
        self.saved = Some(Log::with(&self.saved, target.name().as_bytes(), bytes));
        Ok(())
    }

    /// Returns whether no program has or awaits a lock of that kind on a file.
    pub fn is_quiet(
        &self,
        file: &Found,
        listed: Listed,
        kind: LockKind,
        deadline: &Deadline,
    ) -> Result<bool, DiskFault> {
        let file = Mounted::new(file, listed);
        Ok(!is_locked(&self.looks, &file, kind, deadline)?)
    }

    /// Returns whether no program has or awaits a record lock to write on the old file.
    pub fn watch(
        &self,
        file: &mut NewFile<String<R::A>, R::File>,
        listed: Listed,
        deadline: &Deadline,
    ) -> Result<bool, DiskFault>
        ensures { IfOk result (λ is. file.new ≡ record file.old { stage = watched is file.old.stage }) }
    {
        let is_quiet = match file.stage {
            Stage::Synced(Some(old)) => self.is_quiet(&old, listed, LockKind::Record, deadline)?,
            _ => true,
        };
        file.stage = match (file.stage, is_quiet) {
            (Stage::Synced(old), true) => Stage::Quiet(old),
            (Stage::Synced(old), false) => Stage::Synced(old),
            _ => Stage::Lost,
        };
        Ok(is_quiet)
    }
}
