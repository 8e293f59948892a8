//! Loading from a watched reader, and saving to a watched writer.

ghost use Rattle.std.specs.Prelude.{◌≢◌, ◌≡◌, ◌||◌, ◌+◌, ◌<◌, ◌≤◌, ◌*◌, ◌^◌, ◌++◌, ◌⊎◌, ℕ, List, length, max, min, take, drop, OnOk, OnErr, IfOk, IfErr, IfSome, IsErrOf, vec_capacity, vec_len};
ghost use Rattle.std.specs.Io.KnownBytes.{Consumes, IsAtEnd, Keeps, Appends};
ghost use Rattle.krb_files.specs.Bytes.{ConsumesAtMost, is_read_fault};

use crate::files::LoadFault;
use crate::watched::WatchedReader;
use std::alloc::Allocator;
use std::io::{Read, Write};

// The most bytes that one read requests.
const MOST_READ: usize = 128 * 1024;

// The fewest bytes that one read requests, if there is room.
const LEAST_READ: usize = 4096;

// Reads once into the bytes from `at` on.
fn read_into<R: Read>(
    reader: &mut WatchedReader<R>,
    bytes: &mut [u8],
    at: usize,
) -> Result<usize, LoadFault>
    requires { at < length bytes.old }
    ensures front { take at bytes.new ≡ take at bytes.old }
    ensures within { IfOk result (λ count. at + count ≤ length bytes.new) }
    ensures given { IfOk result (λ count. Consumes reader.old.left reader.new.left
        (take count (drop at bytes.new))) }
    ensures end { IfOk result (λ count. count ≡ 0 → IsAtEnd reader.new.left) }
    ensures err { OnErr result (Keeps reader.old.left reader.new.left) }
    ensures why { IfErr result (λ fault. fault ≡ LoadFault.Failed) }
    ensures failed { reader.new.failed ≡ (is_read_fault result || reader.old.failed) }
{
    match reader.read_some(&mut bytes[at..]) {
        Some(count) => Ok(count),
        None => Err(LoadFault::Failed),
    }
}

// Reads once, at most `most` bytes, and appends what was read. Returns its length, 0 at the end.
pub fn append_read<A: Allocator, R: Read>(
    bytes: &mut Vec<u8, A>,
    reader: &mut WatchedReader<R>,
    most: usize,
) -> Result<usize, LoadFault>
    requires { (0 < most) × (vec_len bytes.old + most < 2 ^ 33) }
    ensures len { IfOk result (λ count. (vec_len bytes.new ≡ vec_len bytes.old + count) × (count ≤ most)) }
    ensures given { OnOk result ((given : List ℕ) × (bytes.new.items ≡ bytes.old.items ++ given)
        × Consumes reader.old.left reader.new.left given) }
    ensures end { IfOk result (λ count. count ≡ 0 → IsAtEnd reader.new.left) }
    ensures err { OnErr result (Keeps reader.old.left reader.new.left) }
    ensures same { OnErr result (bytes.new.items ≡ bytes.old.items) }
    ensures capacity { vec_capacity bytes.old ≤ vec_capacity bytes.new }
    ensures why { IfErr result (λ fault. (fault ≡ LoadFault.Failed) ⊎ (fault ≡ LoadFault.NoMemory)) }
    ensures failed { reader.new.failed ≡ (is_read_fault result || reader.old.failed) }
{
    let filled = bytes.len();
    if bytes.resize(filled + most, 0).is_err() {
        return Err(LoadFault::NoMemory);
    }
    match read_into(reader, bytes, filled) {
        Ok(count) => {
            bytes.truncate(filled + count);
            Ok(count)
        }
        Err(fault) => {
            bytes.truncate(filled);
            Err(fault)
        }
    }
}

// Returns how many bytes to request next, after a read of `last` bytes. Room is zeroed before a read, so little is
// requested of a reader that returns little. Spare capacity is filled before more is allocated.
pub fn next_read<A: Allocator>(bytes: &Vec<u8, A>, last: usize) -> usize
    ensures some { 0 < result }
    ensures most { result ≤ 131072 }
    ensures little { result ≤ max 4096 (2 * last) }
    ensures room { (vec_len bytes.now + result ≤ vec_capacity bytes.now)
        ⊎ (vec_capacity bytes.now ≡ vec_len bytes.now) }
    ensures much { (min 131072 (max 4096 (2 * last)) ≤ result)
        ⊎ (vec_len bytes.now + result ≡ vec_capacity bytes.now) }
{
    let wanted = last.saturating_mul(2).clamp(LEAST_READ, MOST_READ);
    match bytes.capacity() - bytes.len() {
        0 => wanted,
        spare => spare.min(wanted),
    }
}

// Returns the capacity to allocate first, with one byte for the read that finds the end.
fn first_room(expected: u64, limit: u32) -> usize
    ensures most { result ≤ limit + 1 }
    ensures enough { min expected limit ≤ result }
{
    match expected.min(u64::from(limit)) {
        0 => 0,
        count => count as usize + 1,
    }
}

/// Reads to the end, if at most `limit` bytes are left; at most one byte more is read. Allocates capacity for
/// `expected` bytes first, but never for more than may be read. The first read requests as many, up to 128 KiB, or
/// 4,096 if none are expected.
pub fn load<A: Allocator, R: Read>(
    alloc: A,
    reader: &mut WatchedReader<R>,
    limit: u32,
    expected: u64,
) -> Result<Vec<u8, A>, LoadFault>
    ensures ok { IfOk result (λ bytes. IfSome reader.old.left (λ left. bytes.items ≡ left)) }
    ensures within { IfOk result (λ bytes. vec_len bytes ≤ limit) }
    ensures room { IfOk result (λ bytes. min expected limit ≤ vec_capacity bytes) }
    ensures end { OnOk result (IsAtEnd reader.new.left) }
    ensures too_large { IsErrOf result LoadFault.TooLarge
        → IfSome reader.old.left (λ left. limit < length left) }
    ensures never { IfErr result (λ fault. fault ≢ LoadFault.Missing) }
    ensures failed { reader.new.failed ≡ (is_read_fault result || reader.old.failed) }
    ensures taken { ConsumesAtMost reader.old.left reader.new.left (limit + 1) }
{
    let most = limit as usize;
    let Ok(mut bytes) = Vec::with_capacity(alloc, first_room(expected, limit)) else {
        return Err(LoadFault::NoMemory);
    };
    let mut last = expected.min(MOST_READ as u64) as usize;
    loop {
        let room = next_read(&bytes, last).min(most - bytes.len() + 1);
        last = append_read(&mut bytes, reader, room)?;
        if last == 0 {
            return Ok(bytes);
        }
        if bytes.len() > most {
            return Err(LoadFault::TooLarge);
        }
    }
}

/// Writes all the bytes. A write that fails or takes no bytes is the last: the error is how many bytes were written
/// before it.
pub fn save<W: Write>(writer: &mut W, bytes: &[u8]) -> Result<(), usize>
    ensures ok { OnOk result (Appends (W.contents writer.old) (W.contents writer.new) bytes.now) }
    ensures err { IfErr result (λ count. Appends (W.contents writer.old) (W.contents writer.new)
        (take count bytes.now)) }
    ensures short { IfErr result (λ count. count < length bytes.now) }
{
    let mut count = 0;
    while count < bytes.len() {
        match writer.write(&bytes[count..]) {
            Ok(taken) if taken > 0 => count += taken,
            _ => return Err(count),
        }
    }
    Ok(())
}
