//! What the system reports as text, such as the limits of this process.

use crate::fault::{DiskFault, ReadFault};
use crate::looks::Looks;
use crate::open_file::System;
use crate::read::read_file;
use krb_files::Cause;
use krb_wire::USUAL_LIMIT;
use std::{rt, str};

/// Reads the text at `path`. Returns `None` if it cannot be read.
pub fn read_text<R: System>(
    looks: &Looks<'_, R>,
    path: &str,
) -> Result<Option<Vec<u8, R::A>>, DiskFault> {
    match read_file(looks, looks.alloc(), path, USUAL_LIMIT) {
        Ok((_, text)) => Ok(Some(text)),
        Err(ReadFault::Disk(DiskFault::NoMemory)) => Err(DiskFault::NoMemory),
        Err(_) => Ok(None),
    }
}

/// Returns what follows `label` in the first line of a text that begins with it, without blanks around.
pub fn value_of<'a>(text: &'a [u8], label: &str) -> Option<&'a str> {
    let mut lines = str::from_utf8(text).ok()?.lines();
    Some(
        lines
            .find_map(|line| line.strip_prefix(label))?
            .trim_ascii(),
    )
}

/// Where the system reports the limits of this process, one a line, such as `Max file size  4096  unlimited  bytes`:
/// the one in force first.
const LIMITS: &str = "/proc/self/limits";

// Returns the most bytes that a file may have, if there is such a limit.
fn most_bytes(limits: &[u8]) -> Option<u64> {
    let sizes = value_of(limits, "Max file size")?;
    sizes.split_ascii_whitespace().next()?.parse().ok()
}

/// Fails if a file may not be so long: the system would end this process amid the write.
pub fn check_len<R: System>(looks: &Looks<'_, R>, len: usize) -> Result<(), DiskFault> {
    match read_text(looks, LIMITS)?.and_then(|limits| most_bytes(&limits)) {
        Some(most) if most < len as u64 => Err(DiskFault::Failed(Cause::FileTooLarge)),
        _ => Ok(()),
    }
}
