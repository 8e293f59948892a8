//! The calls of a save in place.

ghost use Rattle.std.specs.Prelude.{◌≡◌, ◌≤◌, ◌⊎◌, ◌∷◌, false, true, length, nat_lt, IfOk, IsTrue, OnOk, OnErr, Some, string_bytes};
ghost use Rattle.krb_files.specs.Log.{entries_of};
ghost use Rattle.krb_disk.specs.Aftermaths.{IsDone};
ghost use Rattle.krb_disk.specs.Content.{AtEach, CutsIf, IsPatch, Writes};
ghost use Rattle.krb_disk.specs.Stages.{IsToSync, IsToWatch, IsWatched, WasReadAgain, added, compared_in_place, synced_in_place, unlooked, unsynced, watched_in_place};
ghost use Rattle.krb_disk.specs.declared.stage.PlaceStage.TheVariants.{Same, Extended, Ready, Overwritten, Cut, Finished, Saved, Whole, Mixed, Torn};

use super::{Calls, PlaceFile, describe};
use crate::deadline::Deadline;
use crate::fault::DiskFault;
use crate::looks::locks::LockKind;
use crate::looks::{Found, is_same_file};
use crate::open_file::{HeldFile, System};
use crate::patch::Patch;
use crate::read::has_just;
use crate::snapshot::Snapshot;
use crate::stage::PlaceStage;
use crate::target::Target;
use krb_files::{Aftermath, Cause, Log};
use std::alloc::Allocator;
use std::fs::OpenFile;
use std::io::{self, ErrorKind};

impl<F> PlaceFile<F> {
    /// Nothing is to be written past the old end.
    pub fn pass(&mut self, _patch: Patch<'_>)
        requires due { self.old.stage ≡ Same }
        requires ends { nat_lt (length _patch.before.now) (length _patch.after.now) ≡ false }
        ensures { self.new ≡ record self.old { stage = Ready } }
    {
        self.stage = PlaceStage::Ready;
    }

    /// Nothing else is to be written: the file has the new bytes, and they are synced.
    pub fn settle(&mut self, _patch: Patch<'_>)
        requires due { self.old.stage ≡ Ready }
        requires same { _patch.first ≡ _patch.last }
        requires kept { nat_lt (length _patch.after.now) (length _patch.before.now) ≡ false }
        ensures { self.new ≡ record self.old { stage = Finished } }
    {
        self.stage = PlaceStage::Finished;
    }
}

// Returns whether that is another file than the open one, as far as the system reports.
fn is_other_file<F: OpenFile>(file: &F, named: &Found) -> bool {
    describe(file).is_ok_and(|opened| !is_same_file(named, &opened))
}

impl<R: System> Calls<'_, R> {
    /// Fails unless the old file is still at `path`, as it was loaded, or with `end` behind that once it was added.
    pub fn compare_in_place<A: Allocator>(
        &self,
        old: &mut PlaceFile<R::File>,
        path: &str,
        snapshot: &Snapshot<A>,
        end: &[u8],
    ) -> Result<(), DiskFault>
        requires due { IsWatched old.old.stage }
        ensures ok { OnOk result (old.new ≡ record old.old { stage = compared_in_place true old.old.stage }) }
        ensures err { OnErr result (old.new ≡ record old.old { stage = compared_in_place false old.old.stage }) }
        ensures bytes { OnOk result (WasReadAgain R.File.remaining snapshot.now (added old.old.stage end.now)) }
    {
        let was_lengthened = old.stage == PlaceStage::Unlocked;
        let (same, other) = if was_lengthened {
            (PlaceStage::Ready, PlaceStage::Whole)
        } else {
            (PlaceStage::Same, PlaceStage::Untouched)
        };
        old.stage = other;
        let end = if was_lengthened { end } else { &[] };
        if !snapshot.is_at(&self.looks, path, end)? {
            return Err(DiskFault::Failed(Cause::Changed));
        }
        old.stage = same;
        Ok(())
    }

    /// Syncs the old file, so that what was written to it survives a crash.
    pub fn sync_in_place(&self, old: &mut PlaceFile<R::File>) -> io::Result<()>
        requires due { IsToSync old.old.stage }
        ensures ok { OnOk result (old.new ≡ record old.old { stage = synced_in_place old.old.stage }) }
        ensures err { OnErr result (old.new ≡ record old.old { stage = unsynced old.old.stage }) }
    {
        let (done, failed) = match old.stage {
            PlaceStage::Extended => (PlaceStage::Lengthened, PlaceStage::Whole),
            PlaceStage::Cut => (PlaceStage::Finished, PlaceStage::Torn),
            PlaceStage::Refilled => (PlaceStage::Whole, PlaceStage::Lost),
            _ => (PlaceStage::Back, PlaceStage::Left),
        };
        old.stage = failed;
        old.file.sync_all()?;
        old.stage = done;
        Ok(())
    }

    /// Fails if the name leads to another file now, or to none. Otherwise the save is complete.
    pub fn confirm<A: Allocator>(
        &mut self,
        old: &mut PlaceFile<R::File>,
        target: &Target<A>,
        bytes: &[u8],
    ) -> Result<(), DiskFault>
        requires due { old.old.stage ≡ Finished }
        ensures saved { OnOk result (entries_of self.new.saved
            ≡ (string_bytes target.now.name, bytes.now) ∷ entries_of self.old.saved) }
        ensures unsaved { OnErr result (entries_of self.new.saved ≡ entries_of self.old.saved) }
        ensures ok { OnOk result (old.new.stage ≡ Saved) }
        ensures err { OnErr result (old.new.stage ≡ Finished) }
    {
        match self.looks.come_to(target.name()) {
            Ok(named) if is_other_file(&old.file, &named) => {
                return Err(DiskFault::Failed(Cause::OtherFile));
            }
            Err(error) if error.kind() == ErrorKind::NotFound => {
                return Err(DiskFault::Failed(Cause::NoFile));
            }
            _ => {}
        }
        old.stage = PlaceStage::Saved;
        self.saved = Some(Log::with(&self.saved, target.name().as_bytes(), bytes));
        Ok(())
    }

    /// Returns what a save left behind that another program wrote to meanwhile: the file does not have just the new bytes.
    pub fn look_after(&self, old: &mut PlaceFile<R::File>, bytes: &[u8]) -> Option<Aftermath>
        ensures done { IsDone result }
        ensures stage { old.new.stage ≡ old.old.stage }
    {
        match has_just(&mut old.file, bytes) {
            Ok(true) => None,
            _ => Some(Aftermath::Mixed),
        }
    }

    pub fn extend(&self, old: &mut PlaceFile<R::File>, patch: Patch<'_>) -> io::Result<()>
        requires due { old.old.stage ≡ Same }
        requires grows { length patch.before.now ≤ length patch.after.now }
        ensures ok { OnOk result (old.new.stage ≡ Extended) }
        ensures err { OnErr result (old.new.stage ≡ Whole) }
        ensures writes { OnOk result (AtEach (Writes patch.entry.after.now (length patch.entry.before.now) (length patch.entry.after.now))
            (R.File.content old.old.file) (R.File.content old.new.file)) }
    {
        old.stage = PlaceStage::Whole;
        old.file
            .write_part(patch.after, patch.before.len(), patch.after.len())?;
        old.stage = PlaceStage::Extended;
        Ok(())
    }

    pub fn overwrite(&self, old: &mut PlaceFile<R::File>, patch: Patch<'_>) -> io::Result<()>
        requires due { old.old.stage ≡ Ready }
        requires patch { IsPatch patch.before.now patch.after.now patch.first patch.last }
        ensures ok { OnOk result (old.new.stage ≡ Overwritten) }
        ensures err { OnErr result (old.new.stage ≡ Mixed) }
        ensures writes { OnOk result (AtEach (Writes patch.entry.after.now patch.entry.first patch.entry.last)
            (R.File.content old.old.file) (R.File.content old.new.file)) }
    {
        old.stage = PlaceStage::Mixed;
        if patch.first < patch.last {
            old.file.write_part(patch.after, patch.first, patch.last)?;
        }
        old.stage = PlaceStage::Overwritten;
        Ok(())
    }

    /// Cuts the old file to its new length, if that is less. Fails if its length is not the old one any more.
    pub fn shorten(&self, old: &mut PlaceFile<R::File>, patch: Patch<'_>) -> Result<(), DiskFault>
        requires due { old.old.stage ≡ Overwritten }
        ensures ok { OnOk result (old.new.stage ≡ Cut) }
        ensures err { OnErr result ((old.new.stage ≡ Torn) ⊎ (old.new.stage ≡ Mixed)) }
        ensures cuts { OnOk result (AtEach (CutsIf (nat_lt (length patch.entry.after.now) (length patch.entry.before.now)) (length patch.entry.after.now))
            (R.File.content old.old.file) (R.File.content old.new.file)) }
    {
        old.stage = PlaceStage::Mixed;
        if patch.shrinks() {
            if describe(&old.file)?.size != patch.before.len() as u64 {
                return Err(DiskFault::Failed(Cause::Changed));
            }
            old.stage = PlaceStage::Torn;
            old.file.cut(patch.after.len())?;
        }
        old.stage = PlaceStage::Cut;
        Ok(())
    }

    /// Returns whether no program has or awaits a record lock on the old file, not even to read.
    pub fn watch_in_place(
        &self,
        old: &mut PlaceFile<R::File>,
        snapshot: &Snapshot<R::A>,
        deadline: &Deadline,
    ) -> Result<bool, DiskFault>
        requires due { IsToWatch old.old.stage }
        ensures err { OnErr result (old.new ≡ record old.old { stage = unlooked old.old.stage }) }
        ensures stage { IfOk result (λ is. old.new ≡ record old.old { stage = watched_in_place is old.old.stage }) }
    {
        let was_lengthened = old.stage == PlaceStage::Lengthened;
        if was_lengthened {
            old.stage = PlaceStage::Whole;
        }
        let is_quiet = match snapshot.file() {
            Some(found) => self.is_quiet(&found, old.listed, LockKind::AnyRecord, deadline)?,
            None => true,
        };
        old.stage = match (was_lengthened, is_quiet) {
            (false, false) => PlaceStage::Untouched,
            (false, true) => PlaceStage::Quiet,
            (true, false) => PlaceStage::Lengthened,
            (true, true) => PlaceStage::Unlocked,
        };
        Ok(is_quiet)
    }
}
