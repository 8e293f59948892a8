//! What a failed save in place does with the old bytes.

ghost use Rattle.std.specs.Prelude.{◌≡◌, ◌⊎◌, Some, OnOk, OnErr};
ghost use Rattle.krb_disk.specs.Aftermaths.{IsUndone};
ghost use Rattle.krb_disk.specs.Content.{IsPatch};
ghost use Rattle.krb_disk.specs.Stages.{HasFailed, IsAftermath};
ghost use Rattle.krb_disk.specs.declared.stage.PlaceStage.TheVariants.{Whole, Mixed, Torn, Refilled, Lacking, Back, Left, Lost};

use crate::calls::{Calls, PlaceFile};
use crate::open_file::System;
use crate::patch::Patch;
use krb_files::Aftermath;
use std::io::{self, ErrorKind};

// Writes back the old bytes that may be gone, but where each is there. If they have no room, the file is cut to its old
// length before.
fn write_back<R: System>(
    calls: &Calls<'_, R>,
    file: &mut PlaceFile<R::File>,
    patch: Patch<'_>,
) -> io::Result<()>
    requires torn { (file.old.stage ≡ Mixed) ⊎ (file.old.stage ≡ Torn) }
    requires patch { IsPatch patch.before.now patch.after.now patch.first patch.last }
    ensures ok { OnOk result (file.new.stage ≡ Refilled) }
    ensures err { OnErr result ((file.new.stage ≡ Lacking) ⊎ (file.new.stage ≡ Lost)) }
{
    let Err(error) = calls.restore(file, patch) else {
        return Ok(());
    };
    if calls.recover(file, patch) {
        return Ok(());
    }
    if !has_no_room(&error) || !patch.grows() || !calls.owns_end(file, patch) {
        return Err(error);
    }
    calls.clear_room(file, patch)?;
    calls.restore(file, patch)
}

fn has_no_room(error: &io::Error) -> bool {
    matches!(
        error.kind(),
        ErrorKind::StorageFull | ErrorKind::QuotaExceeded
    )
}

fn put_back<R: System>(
    calls: &Calls<'_, R>,
    file: &mut PlaceFile<R::File>,
    patch: Patch<'_>,
) -> io::Result<()>
    requires torn { (file.old.stage ≡ Mixed) ⊎ (file.old.stage ≡ Torn) }
    requires patch { IsPatch patch.before.now patch.after.now patch.first patch.last }
    ensures ok { OnOk result (file.new.stage ≡ Whole) }
    ensures err { OnErr result (IsAftermath file.new.stage (Some Aftermath.Damaged)) }
{
    write_back(calls, file, patch)?;
    calls.sync_in_place(file)
}

fn trim<R: System>(
    calls: &Calls<'_, R>,
    file: &mut PlaceFile<R::File>,
    patch: Patch<'_>,
) -> io::Result<()>
    requires { file.old.stage ≡ Whole }
    ensures ok { OnOk result (file.new.stage ≡ Back) }
    ensures err { OnErr result (file.new.stage ≡ Left) }
{
    calls.cut_back(file, patch)?;
    calls.sync_in_place(file)
}

/// Brings the old bytes back after a failure, and returns what it has left. What another program wrote past the old end
/// stays.
pub fn bring_back<R: System>(
    calls: &Calls<'_, R>,
    file: &mut PlaceFile<R::File>,
    patch: Patch<'_>,
) -> Option<Aftermath>
    requires failed { HasFailed file.old.stage }
    requires patch { IsPatch patch.before.now patch.after.now patch.first patch.last }
    ensures exact { IsAftermath file.new.stage result }
    ensures undone { IsUndone result }
{
    let has_lacked = file.may_lack_bytes();
    if has_lacked && put_back(calls, file, patch).is_err() {
        return Some(Aftermath::Damaged);
    }
    if !calls.owns_end(file, patch) {
        file.leave();
        return Some(Aftermath::Mixed);
    }
    match trim(calls, file, patch) {
        Ok(()) if has_lacked => Some(Aftermath::Restored),
        _ => None,
    }
}
