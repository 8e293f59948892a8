//! What is asked of an open file and of the system.

ghost use Rattle.std.specs.Prelude.{◌≡◌, ◌≤◌, length, OnOk, None};
ghost use Rattle.krb_disk.specs.Content.{AtEach, Content, Cuts, Writes};
ghost use Rattle.krb_disk.specs.Holding.{was_free};

use std::fs::{File, TryLockError};
use std::io::{self, ErrorKind};
use std::os::fd::AsRawFd;
use std::os::unix::fs::{FileExt, fchown};
use std::rt;

/// An open file that can be held and saved. A call that fails may have done a part.
pub trait HeldFile {
    ghost use Rattle.std.specs.Prelude.{Option, None};
    ghost use Rattle.krb_disk.specs.Content.{Content};

    /// Its bytes, if they are known.
    ghost content: { Self → Option Content } = { λ _. None };

    /// Returns its file descriptor.
    fn number(&self) -> i32;

    /// Takes the lock, as by `flock`, if it is free, and returns whether it was. Does not wait. One open of a file has the
    /// lock at a time, until it is closed.
    fn take_lock(&self) -> io::Result<bool>;

    /// Sets the owner and the group. `None` leaves that one unchanged.
    fn set_owner(&self, owner: Option<u32>, group: Option<u32>) -> io::Result<()>;

    /// Writes the bytes of an image from one place to another at their places.
    fn write_part(&mut self, image: &[u8], from: usize, to: usize) -> io::Result<()>
        requires order { from ≤ to }
        requires within { to ≤ length image.now }
        ensures { OnOk result (AtEach (Writes image.now from to) (content self.old) (content self.new)) };

    /// Cuts it to a length that it has.
    fn cut(&mut self, len: usize) -> io::Result<()>
        ensures { OnOk result (AtEach (Cuts len) (content self.old) (content self.new)) };
}

/// What a save needs of the system: files that can be held, a clock and memory.
pub trait System: rt::Files<File: HeldFile> + rt::Clock + Alloc {}

impl<R: rt::Files<File: HeldFile> + rt::Clock + Alloc> System for R {}

// Returns whether the lock was free, by the answer of the call that tried it.
fn was_free(tried: Result<(), TryLockError>) -> io::Result<bool>
    ensures { result ≡ was_free tried }
{
    match tried {
        Ok(()) => Ok(true),
        Err(TryLockError::WouldBlock) => Ok(false),
        Err(TryLockError::Error(error)) => Err(error),
    }
}

impl HeldFile for File {
    fn number(&self) -> i32 {
        self.as_raw_fd()
    }

    fn take_lock(&self) -> io::Result<bool> {
        was_free(self.try_lock())
    }

    fn set_owner(&self, owner: Option<u32>, group: Option<u32>) -> io::Result<()> {
        fchown(self, owner, group)
    }

    fn write_part(&mut self, image: &[u8], from: usize, to: usize) -> io::Result<()> {
        self.write_all_at(&image[from..to], from as u64)
    }

    fn cut(&mut self, len: usize) -> io::Result<()> {
        self.set_len(len as u64)
    }
}

/// Returns whether the error means that this owner or group cannot be set here: this user may not set it, or the file
/// system has no owners, or none of this number.
pub fn is_refused(error: &io::Error) -> bool {
    matches!(
        error.kind(),
        ErrorKind::PermissionDenied | ErrorKind::Unsupported | ErrorKind::InvalidInput
    )
}
