//! Reads and compares files.

ghost use Rattle.std.specs.Prelude.{◌≡◌, ◌≤◌, ◌++◌, [], IfOk, IfSome, IsTrue, vec_len};
ghost use Rattle.krb_disk.specs.DiskFiles.{refused_others};

use crate::fault::{DiskFault, ReadFault};
use crate::looks::{Found, Looks};
use crate::open_file::System;
use krb_files::{Cause, LoadFault, Node, WatchedReader, load};
use std::alloc::Allocator;
use std::io::{self, Read, Seek};

/// How many bytes are compared at once.
const PIECE: usize = 16_384;

/// Reads what is left of an open file, at most `limit` bytes, with capacity for `expected` as far as `limit` allows.
pub fn read_open<A: Allocator, F: Read + Drop>(
    alloc: A,
    file: F,
    limit: u32,
    expected: u64,
) -> Result<Vec<u8, A>, ReadFault>
    ensures { IfOk result (λ bytes. vec_len bytes ≤ limit) }
{
    let mut file = WatchedReader::new(file);
    match load(alloc, &mut file, limit, expected) {
        Ok(bytes) => Ok(bytes),
        Err(LoadFault::TooLarge) => Err(ReadFault::TooLarge),
        Err(LoadFault::NoMemory) => Err(ReadFault::Disk(DiskFault::NoMemory)),
        Err(LoadFault::Missing | LoadFault::Failed) => {
            let cause = file.cause().unwrap_or(Cause::InputOutput);
            Err(ReadFault::Disk(DiskFault::Failed(cause)))
        }
    }
}

/// Reads a file of at most `limit` bytes.
pub fn read_file<R: System, A: Allocator>(
    looks: &Looks<'_, R>,
    alloc: A,
    path: &str,
    limit: u32,
) -> Result<(Found, Vec<u8, A>), ReadFault>
    ensures { IfOk result (λ read. vec_len read.1 ≤ limit) }
{
    let Some(file) = looks.open(path)? else {
        return Err(ReadFault::Missing);
    };
    let found = file.describe()?;
    let bytes = read_open(alloc, file, limit, found.size)?;
    Ok((found, bytes))
}

/// Refuses what is there and no plain file. What could not be looked at is left to its load.
pub fn refuse_others(node: Node) -> Result<(), ReadFault>
    ensures { result ≡ refused_others node }
{
    match node {
        Node::Folder => Err(ReadFault::Disk(DiskFault::Failed(Cause::IsADirectory))),
        Node::Other => Err(ReadFault::Disk(DiskFault::Failed(Cause::NotAPlainFile))),
        Node::PlainFile | Node::Nothing | Node::Unknown => Ok(()),
    }
}

// Returns what follows the prefix `front` in `bytes`, or `None` if `bytes` does not begin with it.
fn without_front<'a>(bytes: &'a [u8], front: &[u8]) -> Option<&'a [u8]>
    ensures { IfSome result (λ rest. bytes.now ≡ front.now ++ rest.now) }
{
    let (begin, rest) = bytes.split_at_checked(front.len())?;
    if begin == front { Some(rest) } else { None }
}

/// Bytes in two parts, one after the other.
#[derive(Clone, Copy)]
pub struct Parts<'a> {
    pub front: &'a [u8],
    pub end: &'a [u8],
}

impl<'a> Parts<'a> {
    pub fn of(front: &'a [u8]) -> Parts<'a>
        ensures { result.front.now ++ result.end.now ≡ front.now }
    {
        Parts { front, end: &[] }
    }

    // Returns what follows `piece`, or `None` if the bytes do not begin with it.
    fn without(self, piece: &[u8]) -> Option<Parts<'a>>
        ensures { IfSome result (λ rest. self.entry.front.now ++ self.entry.end.now
            ≡ piece.now ++ (rest.front.now ++ rest.end.now)) }
    {
        if piece.len() <= self.front.len() {
            let front = without_front(self.front, piece)?;
            return Some(Parts {
                front,
                end: self.end,
            });
        }
        let rest = without_front(piece, self.front)?;
        let end = without_front(self.end, rest)?;
        Some(Parts { front: &[], end })
    }
}

/// Returns whether exactly these bytes are left to read in a file.
#[tactic(auto, using(crate::proofs::Pieces::had_both, crate::proofs::Pieces::had_none))]
pub fn has_bytes<F: Read>(file: &mut F, bytes: Parts<'_>) -> io::Result<bool>
    ensures { IfOk result (λ has. IsTrue has
        → IfSome (F.remaining file.old) (λ left. left ≡ bytes.entry.front.now ++ bytes.entry.end.now)) }
{
    let mut piece = [0; PIECE];
    let mut left = bytes;
    for _ in 0..=bytes.front.len().saturating_add(bytes.end.len()) {
        let count = file.read(&mut piece)?;
        if count == 0 {
            return Ok(left.front.is_empty() && left.end.is_empty());
        }
        match left.without(&piece[..count]) {
            Some(rest) => left = rest,
            None => return Ok(false),
        }
    }
    Ok(false)
}

/// Returns whether an open file has just these bytes.
pub fn has_just<F: Read + Seek>(file: &mut F, bytes: &[u8]) -> io::Result<bool> {
    file.rewind()?;
    has_bytes(file, Parts::of(bytes))
}
