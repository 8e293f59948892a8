//! Finds out whether another program has locked a file.

use crate::deadline::Deadline;
use crate::fault::DiskFault;
use crate::looks::Looks;
use crate::looks::device::{Mounted, Place};
use crate::open_file::System;
use krb_files::{LoadFault, WatchedReader, append_read};
use krb_wire::USUAL_LIMIT;
use std::{rt, str};

/// The system's list of locks that are taken or awaited, one a line, such as
/// `1: -> OFDLCK ADVISORY  WRITE -1 fe:00:131 0 EOF`.
const LOCKS: &str = "/proc/locks";

/// The most bytes read of the list. If it is longer, the file counts as locked.
const MOST_BYTES: usize = USUAL_LIMIT as usize;

/// How many bytes one read requests: the system returns no more at once.
const PIECE: usize = 4096;

/// How often the list is read before a file counts as not locked. Between two reads the system finds its place again
/// by counting the locks before it, so if one of these goes meanwhile, it skips a lock that is there all the time:
/// up to 31 in 2,000 readings missed it, so five in a row do about once in 10^9.
const READINGS: u32 = 5;

/// The kinds of locks. Those of a whole file and of records do not conflict with each other.
#[derive(Clone, Copy)]
pub enum LockKind {
    /// `flock`: ours, on a new file.
    WholeFile,
    /// `fcntl` record locks to write: MIT's, on a file that its programs change.
    Record,
    /// Also those to read.
    AnyRecord,
}

impl LockKind {
    fn is_called(self, word: &str) -> bool {
        match self {
            LockKind::WholeFile => word == "FLOCK",
            LockKind::Record | LockKind::AnyRecord => word == "POSIX" || word == "OFDLCK",
        }
    }

    fn is_for(self, word: &str) -> bool {
        word == "WRITE" || word == "READ" && matches!(self, LockKind::AnyRecord)
    }
}

fn is_place(word: &str, file: &Mounted) -> bool {
    Place::parse(word).is_some_and(|place| file.is_at(place))
}

// Returns whether a line is a lock of that kind on that file, taken or awaited.
fn is_lock(line: &str, kind: LockKind, file: &Mounted) -> bool {
    let mut words = line.split_ascii_whitespace();
    words.any(|word| kind.is_called(word))
        && words.any(|word| kind.is_for(word))
        && words.any(|word| is_place(word, file))
}

fn has_lock(list: &[u8], kind: LockKind, file: &Mounted) -> bool {
    str::from_utf8(list).is_ok_and(|list| list.lines().any(|line| is_lock(line, kind, file)))
}

// Reads the list from scratch into `list`. Returns whether its end, or a read that failed, came before the deadline
// and within `MOST_BYTES`. A list that cannot be opened has no locks.
fn read_list<R: System>(
    looks: &Looks<'_, R>,
    list: &mut Vec<u8, R::A>,
    deadline: &Deadline,
) -> Result<bool, DiskFault> {
    list.clear();
    let Ok(Some(file)) = looks.open(LOCKS) else {
        return Ok(true);
    };
    let mut file = WatchedReader::new(file);
    for _ in 0..=MOST_BYTES {
        if list.len() > MOST_BYTES || deadline.is_over(looks) {
            return Ok(false);
        }
        match append_read(list, &mut file, PIECE) {
            Ok(0) => return Ok(true),
            Ok(_) => {}
            Err(LoadFault::NoMemory) => return Err(DiskFault::NoMemory),
            Err(_) => return Ok(true),
        }
    }
    Ok(false)
}

/// Returns whether a program has or awaits a lock of that kind on the file, as far as the system reports.
/// If that is not known by the deadline, returns true.
pub fn is_locked<R: System>(
    looks: &Looks<'_, R>,
    file: &Mounted,
    kind: LockKind,
    deadline: &Deadline,
) -> Result<bool, DiskFault> {
    let mut list = Vec::new(looks.alloc());
    let deadline = deadline.for_look(looks);
    for _ in 0..READINGS {
        if !read_list(looks, &mut list, &deadline)? || has_lock(&list, kind, file) {
            return Ok(true);
        }
    }
    Ok(false)
}
