//! A snapshot of a held file.

ghost use Rattle.std.specs.Prelude.{◌≡◌, ◌++◌, ◌↔◌, IsTrue, IfOk};
ghost use Rattle.krb_disk.specs.Content.{WasRead};
ghost use Rattle.krb_disk.specs.Looks.{IsPlain, IsPlainOrNone, IsUnchanged};
ghost use Rattle.krb_disk.specs.Stages.{IsLoaded, WasReadAgain, snapshot_file};

use crate::fault::DiskFault;
use crate::looks::{Found, Looks, is_unchanged};
use crate::open_file::System;
use crate::read::{Parts, has_bytes};
use std::alloc::Allocator;
use std::io;
use wiping::Wiping;

/// A snapshot: what was at a path when it was held or, if it was loaded since, what was loaded. The bytes are cleared
/// before their memory is freed.
#[derive(Drop)]
pub enum Snapshot<A: Allocator> {
    Nothing,
    File(Found),
    Loaded(Found, Vec<u8, Wiping<A>>),
}

fn is_same_plain(old: &Found, new: &Found) -> bool
    ensures { IsTrue result ↔ (IsPlain old.now × IsUnchanged old.now new.now) }
{
    old.is_file() && is_unchanged(old, new)
}

// Returns whether `path` leads to that file, unchanged, with these bytes.
fn leads_to<R: System>(
    looks: &Looks<'_, R>,
    path: &str,
    file: &Found,
    bytes: Parts<'_>,
) -> io::Result<bool>
    ensures { IfOk result (λ is. IsTrue is
        → WasRead R.File.remaining (λ left. left ≡ bytes.entry.front.now ++ bytes.entry.end.now)) }
{
    let Some(mut opened) = looks.open(path)? else {
        return Ok(false);
    };
    if !is_unchanged(file, &opened.describe()?) {
        return Ok(false);
    }
    has_bytes(&mut opened, bytes)
}

impl<A: Allocator> Snapshot<A> {
    pub fn of(found: Option<Found>) -> Snapshot<A>
        ensures { snapshot_file result ≡ found }
    {
        match found {
            Some(file) => Snapshot::File(file),
            None => Snapshot::Nothing,
        }
    }

    /// Returns a snapshot of a file that was loaded, with a copy of its bytes.
    pub fn loaded(alloc: A, file: Found, bytes: &[u8]) -> Result<Snapshot<A>, DiskFault>
        ensures { IfOk result (λ snapshot. IsLoaded file bytes.now snapshot) }
    {
        let copy = Vec::from_slice(Wiping::new(alloc), bytes)?;
        Ok(Snapshot::Loaded(file, copy))
    }

    pub fn file(&self) -> Option<Found>
        ensures { result ≡ snapshot_file self.now }
    {
        match self {
            Snapshot::Nothing => None,
            Snapshot::File(file) => Some(*file),
            Snapshot::Loaded(file, _) => Some(*file),
        }
    }

    /// Returns whether this is still what is at `path`: nothing, or the same plain file, now with `end` behind its
    /// bytes. A symbolic link does not count as the file that it leads to.
    pub fn is_at<R: System>(
        &self,
        looks: &Looks<'_, R>,
        path: &str,
        end: &[u8],
    ) -> Result<bool, DiskFault>
        ensures plain { IfOk result (λ is. IsTrue is → IsPlainOrNone (snapshot_file self.now)) }
        ensures bytes { IfOk result (λ is. IsTrue is → WasReadAgain R.File.remaining self.now end.now) }
    {
        match (self, looks.look(path)?) {
            (Snapshot::Nothing, None) => Ok(true),
            (Snapshot::File(file), Some(found)) => Ok(is_same_plain(file, &found)),
            (Snapshot::Loaded(file, front), Some(found)) => {
                let is_plain = file.is_file();
                let file = if end.is_empty() {
                    *file
                } else {
                    file.after_adding(end.len() as u64, &found)
                };
                let bytes = Parts { front, end };
                Ok(is_plain && is_same_plain(&file, &found) && leads_to(looks, path, &file, bytes)?)
            }
            _ => Ok(false),
        }
    }
}
