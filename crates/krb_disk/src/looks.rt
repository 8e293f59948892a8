//! The system calls that change nothing.

ghost use Rattle.std.specs.Prelude.{◌≡◌, ◌↔◌, IsTrue, bit_and};
ghost use Rattle.krb_disk.specs.DiskFiles.{permissions};
ghost use Rattle.krb_disk.specs.Looks.{IsSameFile, IsUnchanged, node_of};

pub mod device;
pub mod listed;
pub mod locks;
pub mod text;
pub mod users;

use crate::open_file::System;
use krb_files::Node;
use std::fs::{self, Metadata, OpenFile};
use std::io::{self, ErrorKind, Read};
use std::os::unix::fs::MetadataExt;
use std::path::PathBuf;
use std::time::{Duration, Instant};
use std::{rt, thread};

/// The bits of setuid and setgid.
const SET_ID: u32 = 0o6000;

/// What the system reports of a file, as `stat` does.
#[derive(Clone, Copy, Drop)]
pub struct Found {
    /// The file type and the permission bits, as `st_mode`.
    pub mode: u32,
    pub owner: u32,
    pub group: u32,
    pub device: u64,
    pub inode: u64,
    pub links: u64,
    pub size: u64,
}

impl Found {
    pub fn of(metadata: &Metadata) -> Found {
        Found {
            mode: metadata.mode(),
            owner: metadata.uid(),
            group: metadata.gid(),
            device: metadata.dev(),
            inode: metadata.ino(),
            links: metadata.nlink(),
            size: metadata.len(),
        }
    }

    pub fn is_file(&self) -> bool
        ensures { IsTrue result ↔ (bit_and self.now.mode 0o170000 ≡ 0o100000) }
    {
        self.mode & 0o170000 == 0o100000
    }

    /// Returns what lies under a name that leads to it.
    pub fn node(&self) -> Node
        ensures { result ≡ node_of self.now }
    {
        match self.mode & 0o170000 {
            0o100000 => Node::PlainFile,
            0o040000 => Node::Folder,
            _ => Node::Other,
        }
    }

    pub fn permissions(&self) -> Option<u32>
        ensures { result ≡ permissions self.now }
    {
        if self.is_file() {
            Some(self.mode % 0o10000)
        } else {
            None
        }
    }

    /// Returns what is to be found after `count` bytes were added: the same, but that the system clears the bits of setuid
    /// and setgid when another user than root writes, as it did where `now` lacks them.
    pub fn after_adding(&self, count: u64, now: &Found) -> Found {
        let is_same_mode = (self.mode | SET_ID) == (now.mode | SET_ID);
        Found {
            mode: if is_same_mode { now.mode } else { self.mode },
            size: self.size.saturating_add(count),
            ..*self
        }
    }

    pub fn is_link(&self) -> bool {
        self.mode & 0o170000 == 0o120000
    }

    /// Returns whether it is a named pipe. Opening one may block.
    pub fn is_pipe(&self) -> bool {
        self.mode & 0o170000 == 0o010000
    }
}

/// The system, for calls that change nothing.
#[derive(Drop)]
pub struct Looks<'a, R> {
    rt: &'a R,
}

/// A file opened for reading.
#[derive(Drop)]
pub struct Opened<F> {
    file: F,
}

impl<F: Read> Read for Opened<F> {
    ghost remaining = { λ opened. F.remaining opened.file };

    fn read(&mut self, buf: &mut [u8]) -> io::Result<usize> {
        self.file.read(buf)
    }
}

impl<F: OpenFile> Opened<F> {
    pub fn describe(&self) -> io::Result<Found> {
        Ok(Found::of(&self.file.metadata()?))
    }
}

impl<'a, R> Looks<'a, R> {
    pub fn new(rt: &'a R) -> Looks<'a, R> {
        Looks { rt }
    }
}

impl<R: System> Looks<'_, R> {
    /// Returns what is at `path`, or `None` if nothing is. A symbolic link is not followed.
    pub fn look(&self, path: &str) -> io::Result<Option<Found>> {
        match fs::symlink_metadata(self.rt, path) {
            Ok(found) => Ok(Some(Found::of(&found))),
            Err(error) if error.kind() == ErrorKind::NotFound => Ok(None),
            Err(error) => Err(error),
        }
    }

    /// Returns the file that `name` leads to. Symbolic links are followed.
    pub fn come_to(&self, name: &str) -> io::Result<Found> {
        Ok(Found::of(&fs::metadata(self.rt, name)?))
    }

    /// Returns what lies under `name`, symbolic links followed: nothing, if a part before the last is no folder.
    pub fn node(&self, name: &str) -> Node {
        match self.come_to(name).map_err(|error| error.kind()) {
            Ok(found) => found.node(),
            Err(ErrorKind::NotFound | ErrorKind::NotADirectory) => Node::Nothing,
            Err(_) => Node::Unknown,
        }
    }

    pub fn open(&self, path: &str) -> io::Result<Option<Opened<R::File>>> {
        match fs::open(self.rt, path) {
            Ok(file) => Ok(Some(Opened { file })),
            Err(error) if error.kind() == ErrorKind::NotFound => Ok(None),
            Err(error) => Err(error),
        }
    }

    pub fn alloc(&self) -> R::A {
        self.rt.alloc()
    }

    pub fn follow(&self, path: &str) -> io::Result<PathBuf<R::A>> {
        fs::read_link(self.rt, path)
    }

    pub fn pause(&self, time: Duration) {
        thread::sleep(self.rt, time);
    }

    pub fn now(&self) -> Option<Instant> {
        Instant::now(self.rt).ok()
    }
}

pub fn is_same_file(one: &Found, other: &Found) -> bool
    ensures { IsTrue result ↔ IsSameFile one.now other.now }
{
    one.device == other.device && one.inode == other.inode
}

pub fn is_unchanged(old: &Found, new: &Found) -> bool
    ensures { IsTrue result ↔ IsUnchanged old.now new.now }
{
    is_same_file(old, new)
        && old.mode == new.mode
        && old.owner == new.owner
        && old.group == new.group
        && old.size == new.size
}
