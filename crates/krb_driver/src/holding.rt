//! Holds files.

ghost use Rattle.std.specs.Prelude.{None, Some};
ghost use Rattle.krb_driver.specs.Commands.{can_hold};
ghost use Rattle.krb_driver.specs.Composing.{HoldsIf};
ghost use Rattle.krb_files.specs.Loading.{TurnsHold};
ghost use Rattle.krb_files.specs.Plan.{HeldIf};

use crate::file_name::FileName;
use krb_files::Files;

/// Holds the file of that name.
pub fn hold<F: Files>(files: &mut F, name: &str)
    ensures { TurnsHold F.Files (Some name.now) files.old files.new }
{
    files.hold(name);
}

/// Releases the held file, if there is one.
pub fn release<F: Files>(files: &mut F)
    ensures { TurnsHold F.Files None files.old files.new }
{
    files.release();
}

/// Holds the file of that name if `held`, unless the name is of another type.
#[tactic(auto, using(crate::proofs::Making::makes_holds))]
pub fn hold_if<F: Files>(held: bool, files: &mut F, file: FileName<'_>)
    ensures held { HeldIf F.Files (can_hold held file.entry) file.entry.name.now files.old files.new }
    ensures plans { HoldsIf F.Files files.old (can_hold held file.entry) file.entry.name.now files.new }
{
    if held && !file.is_other_type {
        hold(files, file.name);
    }
}
