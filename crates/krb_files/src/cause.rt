//! The causes of failed file calls.

ghost use Rattle.std.specs.Prelude.{◌≡◌, Some, unsigned_abs};
ghost use Rattle.krb_files.specs.Phrases.{cause_name, cause_phrase, cause_text};

use std::fmt;
use std::io::{self, ErrorKind};
use thiserror::Error;

/// ENOLCK.
const NO_LOCK: i32 = 37;

/// EIO.
const INPUT_OUTPUT: i32 = 5;

/// Why a load or a save failed.
#[derive(Clone, Copy, Debug, PartialEq, Eq, Error)]
pub enum Cause {
    PermissionDenied,
    NoDirectory,
    /// The file to be saved in place is missing.
    NoFile,
    NotADirectory,
    IsADirectory,
    /// The file to be changed exists and is not a plain file.
    NotAPlainFile,
    TooManyLinks,
    /// The text of a symbolic link is not UTF-8.
    BadLink,
    /// A link of /proc leads to a file that has no name.
    NoName,
    NoSpace,
    QuotaExceeded,
    ReadOnly,
    /// A mount point cannot be renamed over.
    MountPoint,
    NameTooLong,
    FileTooLarge,
    InputOutput,
    Interrupted,
    BrokenPipe,
    /// Another program holds the file, or has locked it to change it, or waits to lock it.
    InUse,
    /// The file is not the one that was loaded, or was changed since.
    Changed,
    /// After the save in place the name led to another file.
    OtherFile,
    /// The file's own name is that of a new file of a save.
    NameOfSaves,
    /// Something that is not ours has the name of the new file.
    InTheWay,
    /// The owner or the group could not be set, though that is allowed.
    OwnerNotKept,
    NoLock,
    /// Any other error of the system, by its number.
    System(i32),
}

impl Cause {
    /// Returns its phrase. For an error of the system, the number follows.
    pub fn phrase(self) -> &'static str
        ensures { result.now ≡ cause_phrase self }
    {
        match self {
            Cause::PermissionDenied => "permission denied",
            Cause::NoDirectory => "no such directory",
            Cause::NoFile => "no such file",
            Cause::NotADirectory => "not a directory",
            Cause::IsADirectory => "is a directory",
            Cause::NotAPlainFile => "not a plain file",
            Cause::TooManyLinks => "too many links",
            Cause::BadLink => "a link that cannot be followed",
            Cause::NoName => "the file has no name any more",
            Cause::NoSpace => "no space left",
            Cause::QuotaExceeded => "quota exceeded",
            Cause::ReadOnly => "read-only file system",
            Cause::MountPoint => "a mount point cannot be replaced",
            Cause::NameTooLong => "the name is too long",
            Cause::FileTooLarge => "file too large for the file system",
            Cause::InputOutput => "input/output error",
            Cause::Interrupted => "interrupted",
            Cause::BrokenPipe => "broken pipe",
            Cause::InUse => "in use by another program",
            Cause::Changed => "changed by another program; nothing was saved",
            Cause::OtherFile => "another file has this name now",
            Cause::NameOfSaves => "a name that ends in .krbfile is kept for saves",
            Cause::InTheWay => "the name of its new file is taken",
            Cause::OwnerNotKept => "the owner cannot be kept",
            Cause::NoLock => "no lock can be had",
            Cause::System(_) => "error ",
        }
    }

    /// Returns the name that errno.h has for it, or for what is closest.
    pub fn name(self) -> &'static str
        ensures { result.now ≡ cause_name self }
    {
        match self {
            Cause::PermissionDenied => "EACCES",
            Cause::NoDirectory | Cause::NoFile => "ENOENT",
            Cause::NotADirectory => "ENOTDIR",
            Cause::IsADirectory => "EISDIR",
            Cause::NotAPlainFile | Cause::NameOfSaves => "EINVAL",
            Cause::TooManyLinks => "ELOOP",
            Cause::BadLink => "EILSEQ",
            Cause::NoName | Cause::Changed | Cause::OtherFile => "ESTALE",
            Cause::NoSpace => "ENOSPC",
            Cause::QuotaExceeded => "EDQUOT",
            Cause::ReadOnly => "EROFS",
            Cause::MountPoint => "EBUSY",
            Cause::NameTooLong => "ENAMETOOLONG",
            Cause::FileTooLarge => "EFBIG",
            Cause::InputOutput | Cause::System(_) => "EIO",
            Cause::Interrupted => "EINTR",
            Cause::BrokenPipe => "EPIPE",
            Cause::InUse => "EAGAIN",
            Cause::InTheWay => "EEXIST",
            Cause::OwnerNotKept => "EPERM",
            Cause::NoLock => "ENOLCK",
        }
    }
}

// Returns the cause of an error with that number. Without a number, the system gave no reason.
fn cause_of_number(number: Option<i32>) -> Cause {
    match number {
        None | Some(INPUT_OUTPUT) => Cause::InputOutput,
        Some(NO_LOCK) => Cause::NoLock,
        Some(other) => Cause::System(other),
    }
}

// `NotFound` is about a directory: a missing file is no failure.
impl From<&io::Error> for Cause {
    fn from(error: &io::Error) -> Cause {
        match error.kind() {
            ErrorKind::PermissionDenied => Cause::PermissionDenied,
            ErrorKind::NotFound => Cause::NoDirectory,
            ErrorKind::NotADirectory => Cause::NotADirectory,
            ErrorKind::IsADirectory => Cause::IsADirectory,
            ErrorKind::FilesystemLoop => Cause::TooManyLinks,
            ErrorKind::StorageFull => Cause::NoSpace,
            ErrorKind::QuotaExceeded => Cause::QuotaExceeded,
            ErrorKind::ReadOnlyFilesystem => Cause::ReadOnly,
            ErrorKind::InvalidFilename => Cause::NameTooLong,
            ErrorKind::FileTooLarge => Cause::FileTooLarge,
            ErrorKind::Interrupted => Cause::Interrupted,
            ErrorKind::BrokenPipe => Cause::BrokenPipe,
            _ => cause_of_number(error.raw_os_error()),
        }
    }
}

impl fmt::Display for Cause {
    ghost output = { λ cause. Some (cause_text cause) };

    fn fmt<W: fmt::Write>(&self, f: &mut fmt::Formatter<W>) -> fmt::Result {
        match self {
            Cause::System(number) => {
                let number = number.unsigned_abs();
                write!(f, "error {number}")
            }
            cause => f.write_str(cause.phrase()),
        }
    }
}
