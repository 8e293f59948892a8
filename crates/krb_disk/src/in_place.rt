//! A save in place.

ghost use Rattle.std.specs.Prelude.{◌≡◌, ◌⊎◌, ◌∷◌, length, IfErr, IfOk, OnOk, OnErr, string_bytes};
ghost use Rattle.krb_files.specs.Log.{entries_of};
ghost use Rattle.krb_disk.specs.Aftermaths.{IsDone, IsRefused};
ghost use Rattle.krb_disk.specs.Content.{AtEach, IsPatch, Replaces, TurnsInto, Writes};
ghost use Rattle.krb_disk.specs.Stages.{HasFailed, IsAftermath, IsToWatch, looked, unlooked};
ghost use Rattle.krb_disk.specs.declared.stage.PlaceStage.TheVariants.{Same, Ready, Finished, Saved, Whole};

mod bring_back;

use crate::calls::{Calls, PlaceFile};
use crate::deadline::{Deadline, MOST_TRIES};
use crate::fault::{DiskFault, Unsaved};
use crate::old::Old;
use crate::open_file::System;
use crate::patch::Patch;
use crate::snapshot::Snapshot;
use bring_back::bring_back;
use krb_files::{Aftermath, Cause};

// Waits until no program has the file locked. Fails if another program changed it since it was loaded: the bytes are
// compared last, as what another program writes before that is not lost.
fn check<R: System>(
    calls: &Calls<'_, R>,
    file: &mut PlaceFile<R::File>,
    old: &Old<R>,
    end: &[u8],
    deadline: &mut Deadline,
) -> Result<(), DiskFault>
    requires { IsToWatch file.old.stage }
    ensures ok { OnOk result (file.new ≡ record file.old { stage = looked file.old.stage }) }
    ensures err { OnErr result ((file.new.stage ≡ file.old.stage)
        ⊎ (file.new.stage ≡ unlooked file.old.stage)) }
{
    for _ in 0..=MOST_TRIES {
        if calls.watch_in_place(file, &old.snapshot, deadline)? {
            return calls.compare_in_place(file, old.target.path(), &old.snapshot, end);
        }
        deadline.pause(calls.looks())?;
    }
    Err(DiskFault::Failed(Cause::InUse))
}

// Writes the new bytes past the old end and syncs them, so that no old byte is gone where the new ones have no room, and
// looks at the file once more. If there are none, nothing is to be done.
fn lengthen<R: System>(
    calls: &Calls<'_, R>,
    file: &mut PlaceFile<R::File>,
    old: &Old<R>,
    patch: Patch<'_>,
    deadline: &mut Deadline,
) -> Result<(), DiskFault>
    requires { file.old.stage ≡ Same }
    ensures ok { OnOk result (file.new.stage ≡ Ready) }
    ensures err { OnErr result (file.new.stage ≡ Whole) }
    ensures writes { OnOk result (AtEach (Writes patch.entry.after.now (length patch.entry.before.now) (length patch.entry.after.now))
        (R.File.content file.old.file) (R.File.content file.new.file)) }
{
    if !patch.grows() {
        file.pass(patch);
        return Ok(());
    }
    calls.extend(file, patch)?;
    calls.sync_in_place(file)?;
    let checked = check(calls, file, old, patch.end(), deadline);
    if checked.is_err() {
        file.give_up();
    }
    checked
}

// Writes the new bytes over old ones, cuts the file if it gets shorter, and syncs it.
fn write_over<R: System>(
    calls: &Calls<'_, R>,
    file: &mut PlaceFile<R::File>,
    patch: Patch<'_>,
) -> Result<(), DiskFault>
    requires ready { file.old.stage ≡ Ready }
    requires patch { IsPatch patch.before.now patch.after.now patch.first patch.last }
    ensures ok { OnOk result (file.new.stage ≡ Finished) }
    ensures err { OnErr result (HasFailed file.new.stage) }
    ensures bytes { OnOk result (Replaces patch.entry.before.now patch.entry.after.now
        (R.File.content file.old.file) (R.File.content file.new.file)) }
{
    if patch.is_done() {
        file.settle(patch);
        return Ok(());
    }
    calls.overwrite(file, patch)?;
    calls.shorten(file, patch)?;
    Ok(calls.sync_in_place(file)?)
}

fn write<R: System>(
    calls: &Calls<'_, R>,
    file: &mut PlaceFile<R::File>,
    old: &Old<R>,
    patch: Patch<'_>,
    deadline: &mut Deadline,
) -> Result<(), DiskFault>
    requires same { file.old.stage ≡ Same }
    requires patch { IsPatch patch.before.now patch.after.now patch.first patch.last }
    ensures ok { OnOk result (file.new.stage ≡ Finished) }
    ensures err { OnErr result (HasFailed file.new.stage) }
    ensures bytes { OnOk result (TurnsInto patch.entry.before.now patch.entry.after.now
        (R.File.content file.old.file) (R.File.content file.new.file)) }
{
    lengthen(calls, file, old, patch, deadline)?;
    write_over(calls, file, patch)
}

// Writes the new bytes over the old ones, or brings these back, and returns what another program's writing left.
fn change<R: System>(
    calls: &mut Calls<'_, R>,
    file: &mut PlaceFile<R::File>,
    old: &Old<R>,
    patch: Patch<'_>,
    deadline: &mut Deadline,
) -> Result<Option<Aftermath>, Unsaved>
    requires same { file.old.stage ≡ Same }
    requires patch { IsPatch patch.before.now patch.after.now patch.first patch.last }
    ensures stage { OnOk result (file.new.stage ≡ Saved) }
    ensures done { IfOk result IsDone }
    ensures aftermath { IfErr result (λ unsaved. IsAftermath file.new.stage unsaved.aftermath) }
    ensures refused { IfErr result IsRefused }
    ensures saved { OnOk result (entries_of calls.new.saved
        ≡ (string_bytes old.now.target.name, patch.entry.after.now) ∷ entries_of calls.old.saved) }
    ensures unsaved { OnErr result (entries_of calls.new.saved ≡ entries_of calls.old.saved) }
{
    if let Err(fault) = write(calls, file, old, patch, deadline) {
        return Err(Unsaved::leaving(fault, bring_back(calls, file, patch)));
    }
    calls.confirm(file, &old.target, patch.after)?;
    Ok(calls.look_after(file, patch.after))
}

/// Writes these bytes over those of the file, or fails and leaves it unchanged, or says what it has left. Ends the hold.
pub fn save_in_place<R: System>(
    calls: &mut Calls<'_, R>,
    mut old: Old<R>,
    bytes: &[u8],
) -> Result<Option<Aftermath>, Unsaved>
    ensures ok { OnOk result (entries_of calls.new.saved
        ≡ (string_bytes old.target.name, bytes.now) ∷ entries_of calls.old.saved) }
    ensures err { OnErr result (entries_of calls.new.saved ≡ entries_of calls.old.saved) }
    ensures done { IfOk result IsDone }
    ensures refused { IfErr result IsRefused }
{
    old.load_anew(calls)?;
    let Some(file) = old.handle.take() else {
        return Err(Unsaved::from(DiskFault::Failed(Cause::NoFile)));
    };
    let mut file = file.to_be_written()?;
    let mut deadline = Deadline::new(calls.looks());
    check(calls, &mut file, &old, &[], &mut deadline)?;
    let Snapshot::Loaded(_, before) = &old.snapshot else {
        return Err(Unsaved::from(DiskFault::Failed(Cause::Changed)));
    };
    let patch = Patch::between(before, bytes);
    change(calls, &mut file, &old, patch, &mut deadline)
}
