//! How long to wait for another program.

ghost use Rattle.std.specs.Prelude.{◌≡◌, ◌+◌, ◌≤◌, OnOk};

use crate::fault::DiskFault;
use crate::looks::Looks;
use crate::open_file::System;
use krb_files::Cause;
use std::time::{Duration, Instant};

/// The most seconds of a wait. There is one before a file is loaded and one before it is saved.
const MOST_SECONDS: u64 = 10;

/// The most seconds if something that is not ours is in the way: a run of another user may end soon.
const FEW_SECONDS: u64 = 1;

/// How many milliseconds to sleep before the next try.
const PAUSE: u64 = 5;

/// The most tries after the first. The sleeps alone add up to `MOST_SECONDS`, and the count bounds the wait if the
/// clock cannot be read or does not advance.
pub const MOST_TRIES: u32 = 2000;

/// The most tries after the first if something that is not ours is in the way.
const FEW_TRIES: u32 = 200;

/// A wait: when it began, the most seconds of it, and how many tries there were after the first.
#[derive(Clone, Copy, Drop)]
pub struct Deadline {
    start: Option<Instant>,
    most: u64,
    tries: u32,
}

impl Deadline {
    pub fn new<R: System>(looks: &Looks<'_, R>) -> Deadline
        ensures { result.tries ≡ 0 }
    {
        Deadline {
            start: looks.now(),
            most: MOST_SECONDS,
            tries: 0,
        }
    }

    /// Returns the wait for one look: a second from now if this one was over before its first look, as when an open took
    /// long.
    pub fn for_look<R: System>(&self, looks: &Looks<'_, R>) -> Deadline {
        if self.tries > 0 || !self.is_over(looks) {
            return *self;
        }
        Deadline {
            start: looks.now(),
            most: FEW_SECONDS,
            tries: 0,
        }
    }

    // Returns whether that many seconds passed, by the clock. False if the clock cannot be read.
    fn has_taken<R: System>(&self, looks: &Looks<'_, R>, seconds: u64) -> bool {
        match (self.start, looks.now()) {
            (Some(start), Some(now)) => now.duration_since(start).as_secs() >= seconds,
            _ => false,
        }
    }

    pub fn is_short<R: System>(&self, looks: &Looks<'_, R>) -> bool {
        self.tries >= FEW_TRIES || self.has_taken(looks, FEW_SECONDS)
    }

    pub fn is_over<R: System>(&self, looks: &Looks<'_, R>) -> bool {
        self.has_taken(looks, self.most)
    }

    /// Sleeps before the next try, or fails with `InUse` if no try or no time is left.
    pub fn pause<R: System>(&mut self, looks: &Looks<'_, R>) -> Result<(), DiskFault>
        ensures counted { OnOk result (self.new.tries ≡ self.old.tries + 1) }
        ensures most { OnOk result (self.new.tries ≤ 2000) }
    {
        if self.tries >= MOST_TRIES || self.is_over(looks) {
            return Err(DiskFault::Failed(Cause::InUse));
        }
        self.tries += 1;
        looks.pause(Duration::from_millis(PAUSE));
        Ok(())
    }
}
