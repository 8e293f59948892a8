//! Why a call on the disk failed.

ghost use Rattle.std.specs.Prelude.{◌≡◌, None};
ghost use Rattle.krb_disk.specs.Aftermaths.{IsRefused, IsUndone};
ghost use Rattle.krb_disk.specs.declared.fault.DiskFault.TheVariants.{NoMemory};
ghost use Rattle.krb_disk.specs.declared.fault.ReadFault.TheVariants.{Disk};

use krb_files::{Aftermath, Cause};
use std::alloc::AllocError;
use std::io::{self, ErrorKind};

/// Why a call on the disk failed.
#[derive(Clone, Copy)]
pub enum DiskFault {
    NoMemory,
    Failed(Cause),
}

/// Why a file was not read.
#[derive(Clone, Copy)]
pub enum ReadFault {
    Missing,
    TooLarge,
    Disk(DiskFault),
}

/// Why a file was not saved, and what that left behind.
#[derive(Clone, Copy)]
pub struct Unsaved {
    pub why: DiskFault,
    pub aftermath: Option<Aftermath>,
}

impl Unsaved {
    /// Returns why a save in place was not made, and what that left. Where another program wrote beside it, a part of it
    /// may be there, and where it left something, memory is not what is told.
    pub fn leaving(why: DiskFault, aftermath: Option<Aftermath>) -> Unsaved
        ensures refused { IsUndone aftermath → IsRefused result }
        ensures left { result.aftermath ≡ aftermath }
    {
        let why = match (why, aftermath) {
            (DiskFault::NoMemory, Some(_)) => DiskFault::Failed(Cause::InUse),
            (DiskFault::Failed(Cause::Changed), Some(Aftermath::Mixed)) => {
                DiskFault::Failed(Cause::InUse)
            }
            (why, _) => why,
        };
        Unsaved { why, aftermath }
    }
}

impl From<DiskFault> for Unsaved {
    ghost from_gives = { λ why unsaved. unsaved ≡ record { why = why; aftermath = None } };

    fn from(why: DiskFault) -> Unsaved {
        Unsaved {
            why,
            aftermath: None,
        }
    }
}

// An error of the system, even ENOMEM, has a number and is `Failed`. An `OutOfMemory` without a number means that an
// allocation of the program failed.
impl From<io::Error> for DiskFault {
    fn from(error: io::Error) -> DiskFault {
        match (error.kind(), error.raw_os_error()) {
            (ErrorKind::OutOfMemory, None) => DiskFault::NoMemory,
            _ => DiskFault::Failed(Cause::from(&error)),
        }
    }
}

impl From<AllocError> for DiskFault {
    ghost from_gives = { λ _ fault. fault ≡ NoMemory };

    fn from(_refused: AllocError) -> DiskFault {
        DiskFault::NoMemory
    }
}

impl From<DiskFault> for ReadFault {
    ghost from_gives = { λ fault read. read ≡ Disk fault };

    fn from(fault: DiskFault) -> ReadFault {
        ReadFault::Disk(fault)
    }
}

impl From<io::Error> for ReadFault {
    fn from(error: io::Error) -> ReadFault {
        ReadFault::Disk(DiskFault::from(error))
    }
}
