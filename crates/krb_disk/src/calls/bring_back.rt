//! The calls that bring the old bytes back after a save in place failed.

ghost use Rattle.std.specs.Prelude.{◌≡◌, ◌⊎◌, ◌↔◌, true, length, nat_lt, IfOk, IsTrue, OnOk, OnErr};
ghost use Rattle.krb_disk.specs.Content.{AtEach, Begins, Cuts, CutsIf, IsPatch, WasRead, Writes};
ghost use Rattle.krb_disk.specs.Stages.{IsToRestore, recovered, torn_to, unrestored};
ghost use Rattle.krb_disk.specs.declared.stage.PlaceStage.TheVariants.{Lengthened, Whole, Mixed, Torn, Refilled, Lacking, Cleared, Trimmed, Left, Lost};

use super::{Calls, PlaceFile, describe};
use crate::open_file::{HeldFile, System};
use crate::patch::Patch;
use crate::read::{Parts, has_bytes};
use crate::stage::PlaceStage;
use std::fs::OpenFile;
use std::io::{self, Read, Seek, SeekFrom};

impl<F> PlaceFile<F> {
    /// Returns whether old bytes may have been written over or cut off.
    pub fn may_lack_bytes(&self) -> bool
        ensures { IsTrue result ↔ ((self.now.stage ≡ Mixed) ⊎ (self.now.stage ≡ Torn)) }
    {
        matches!(self.stage, PlaceStage::Mixed | PlaceStage::Torn)
    }

    /// The new end was added, but the save goes no further.
    pub fn give_up(&mut self)
        requires due { (self.old.stage ≡ Whole) ⊎ (self.old.stage ≡ Lengthened) }
        ensures { self.new ≡ record self.old { stage = Whole } }
    {
        self.stage = PlaceStage::Whole;
    }

    /// What is past the old end stays.
    pub fn leave(&mut self)
        requires due { self.old.stage ≡ Whole }
        ensures { self.new ≡ record self.old { stage = Left } }
    {
        self.stage = PlaceStage::Left;
    }
}

// Returns the front of the new end that an open file has room for past the old end, or `None` if it is shorter than that or
// longer than the new bytes.
fn end_within<'a, F: OpenFile>(file: &F, patch: Patch<'a>) -> io::Result<Option<&'a [u8]>> {
    let len = describe(file)?.size;
    let (old, new) = (patch.before.len() as u64, patch.after.len() as u64);
    if len < old || len > old.max(new) {
        return Ok(None);
    }
    Ok(patch.end().get(..(len - old) as usize))
}

// Returns whether what an open file has past the old end is a front of the new end.
fn has_own_end<F: OpenFile + Read + Seek>(file: &mut F, patch: Patch<'_>) -> io::Result<bool> {
    let Some(end) = end_within(file, patch)? else {
        return Ok(false);
    };
    file.seek(SeekFrom::Start(patch.before.len() as u64))?;
    has_bytes(file, Parts::of(end))
}

// Returns whether an open file has the old bytes, and then a front of the new end.
fn has_old<F: OpenFile + Read + Seek>(file: &mut F, patch: Patch<'_>) -> io::Result<bool>
    ensures { IfOk result (λ has. IsTrue has → WasRead F.remaining (Begins patch.entry.before.now)) }
{
    let Some(end) = end_within(file, patch)? else {
        return Ok(false);
    };
    file.rewind()?;
    let front = patch.before;
    has_bytes(file, Parts { front, end })
}

impl<R: System> Calls<'_, R> {
    /// Returns whether nothing past the old end is another program's: it may be cut off.
    pub fn owns_end(&self, old: &mut PlaceFile<R::File>, patch: Patch<'_>) -> bool
        ensures { old.new.stage ≡ old.old.stage }
    {
        !patch.grows() || matches!(has_own_end(&mut old.file, patch), Ok(true))
    }

    /// Returns whether each old byte is there, though they were not written back: none was written over.
    pub fn recover(&self, old: &mut PlaceFile<R::File>, patch: Patch<'_>) -> bool
        requires due { old.old.stage ≡ Lacking }
        ensures stage { old.new.stage ≡ recovered result }
        ensures read { IsTrue result → WasRead R.File.remaining (Begins patch.entry.before.now) }
    {
        let has_old = matches!(has_old(&mut old.file, patch), Ok(true));
        if has_old {
            old.stage = PlaceStage::Refilled;
        }
        has_old
    }

    /// Writes back the old bytes that may be gone.
    pub fn restore(&self, old: &mut PlaceFile<R::File>, patch: Patch<'_>) -> io::Result<()>
        requires due { IsToRestore old.old.stage }
        requires patch { IsPatch patch.before.now patch.after.now patch.first patch.last }
        ensures ok { OnOk result (old.new.stage ≡ Refilled) }
        ensures err { OnErr result (old.new.stage ≡ unrestored old.old.stage) }
        ensures writes { OnOk result (AtEach (Writes patch.entry.before.now patch.entry.first
            (torn_to (length patch.entry.before.now) (length patch.entry.after.now) patch.entry.last old.old.stage))
            (R.File.content old.old.file) (R.File.content old.new.file)) }
    {
        let end = if old.stage == PlaceStage::Torn && patch.shrinks() {
            patch.before.len()
        } else {
            patch.last
        };
        old.stage = if old.stage == PlaceStage::Cleared {
            PlaceStage::Lost
        } else {
            PlaceStage::Lacking
        };
        old.file.write_part(patch.before, patch.first, end)?;
        old.stage = PlaceStage::Refilled;
        Ok(())
    }

    /// Cuts the old file to its old length before its old bytes are back: the new end has the room that they need.
    pub fn clear_room(&self, old: &mut PlaceFile<R::File>, patch: Patch<'_>) -> io::Result<()>
        requires due { old.old.stage ≡ Lacking }
        requires grows { nat_lt (length patch.before.now) (length patch.after.now) ≡ true }
        ensures ok { OnOk result (old.new.stage ≡ Cleared) }
        ensures err { OnErr result (old.new.stage ≡ Lost) }
        ensures cuts { OnOk result (AtEach (Cuts (length patch.entry.before.now))
            (R.File.content old.old.file) (R.File.content old.new.file)) }
    {
        old.stage = PlaceStage::Lost;
        old.file.cut(patch.before.len())?;
        old.stage = PlaceStage::Cleared;
        Ok(())
    }

    /// Cuts the old file to its old length, if it was to grow.
    pub fn cut_back(&self, old: &mut PlaceFile<R::File>, patch: Patch<'_>) -> io::Result<()>
        requires due { old.old.stage ≡ Whole }
        ensures ok { OnOk result (old.new.stage ≡ Trimmed) }
        ensures err { OnErr result (old.new.stage ≡ Left) }
        ensures cuts { OnOk result (AtEach (CutsIf (nat_lt (length patch.entry.before.now) (length patch.entry.after.now)) (length patch.entry.before.now))
            (R.File.content old.old.file) (R.File.content old.new.file)) }
    {
        old.stage = PlaceStage::Left;
        if patch.grows() {
            old.file.cut(patch.before.len())?;
        }
        old.stage = PlaceStage::Trimmed;
        Ok(())
    }
}
