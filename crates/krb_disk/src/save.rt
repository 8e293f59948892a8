//! Fills the new file of a save.

ghost use Rattle.std.specs.Prelude.{◌≡◌, Some, OnOk, string_bytes};
ghost use Rattle.std.specs.Io.KnownBytes.{Appends};
ghost use Rattle.krb_disk.specs.NewFile.{IsFilled};
ghost use Rattle.krb_disk.specs.Stages.{IsDueMode};
ghost use Rattle.krb_disk.specs.declared.stage.Stage.TheVariants.{Held, Written, Synced};

use crate::calls::{Calls, NewFile};
use crate::fault::DiskFault;
use crate::looks::Found;
use crate::mode::{Inheritance, new_mode};
use crate::new_file::PRIVATE;
use crate::open_file::System;

// Sets the owner and the group of the new file to those of the old one, or the group alone, as far as that is allowed.
fn give_owner<R: System>(
    calls: &Calls<'_, R>,
    file: &NewFile<String<R::A>, R::File>,
    old: &Found,
) -> Result<(), DiskFault>
    requires { file.now.stage ≡ Written }
{
    if !calls.own(file, old, Some(old.owner), old.group)? {
        calls.own(file, old, None, old.group)?;
    }
    Ok(())
}

fn permit_and_sync<R: System>(
    calls: &Calls<'_, R>,
    file: &mut NewFile<String<R::A>, R::File>,
    old: Option<Found>,
    mode: u32,
) -> Result<(), DiskFault>
    requires { IsDueMode old file.old.stage mode }
    ensures { OnOk result (file.new ≡ record file.old { stage = Synced old }) }
{
    calls.permit(file, old, mode)?;
    Ok(calls.sync(file)?)
}

// Sets the owner and the group of the new file as far as allowed, and the mode due after that, and syncs it.
fn inherit<R: System>(
    calls: &Calls<'_, R>,
    file: &mut NewFile<String<R::A>, R::File>,
    old: Found,
) -> Result<(), DiskFault>
    requires { file.old.stage ≡ Written }
    ensures { OnOk result (file.new ≡ record file.old { stage = Synced (Some old) }) }
{
    give_owner(calls, file, &old)?;
    let new = calls.stat(file)?;
    let has = Inheritance {
        owner: new.owner == old.owner,
        group: new.group == old.group,
    };
    permit_and_sync(calls, file, Some(old), new_mode(old.mode, has))
}

/// Writes the whole new file, sets its owner and mode, and syncs it.
pub fn fill<R: System>(
    calls: &Calls<'_, R>,
    new: &mut NewFile<String<R::A>, R::File>,
    bytes: &[u8],
    old: Option<Found>,
) -> Result<(), DiskFault>
    requires { new.old.stage ≡ Held }
    ensures written { OnOk result (Appends (R.File.contents new.old.file.file) (R.File.contents new.new.file.file) bytes.now) }
    ensures filled { OnOk result (IsFilled (string_bytes new.old.path) bytes.now new.new) }
    ensures stage { OnOk result (new.new.stage ≡ Synced old) }
{
    calls.write(new, bytes)?;
    match old {
        Some(old) => inherit(calls, new, old),
        None => permit_and_sync(calls, new, None, PRIVATE),
    }
}
