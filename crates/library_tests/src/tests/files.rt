//! Files in memory, and loads.

use super::BLOCK;
use krb_files::{Files, LoadFault, MemFiles, SaveFault, WatchedReader, load, save};
use linked_list_allocator::LocalHeap;
use std::io::{Read, repeat};
use std::test::Fail;

/// The second call is set to fail.
#[test]
fn files_in_memory(rt: HostRuntime) -> Result<(), Fail> {
    let mut files = MemFiles::of(rt.alloc(), Vec::new(rt.alloc()));
    files.fail_at(2);
    files.save("k", b"old")?;
    assert!(rt; files.save("k", b"new") == Err(SaveFault::Failed));
    assert!(rt; files.load(rt.alloc(), "k", 2).err() == Some(LoadFault::TooLarge));
    assert!(rt; files.load(rt.alloc(), "k", 3)?.as_slice() == b"old".as_slice());
    Ok(())
}

/// A load takes no more memory than its limit, whatever size is expected.
#[test]
fn a_load_within_its_limit(rt: HostRuntime) -> Result<(), Fail> {
    let heap = LocalHeap::new(rt.alloc(), 4 * BLOCK)?;
    for expected in [0, 8, u64::MAX] {
        let mut reader = WatchedReader::new(b"8 bytes.".as_slice());
        assert!(rt; load(&heap, &mut reader, 8, expected)?.as_slice() == b"8 bytes.".as_slice());
    }
    Ok(())
}

/// A load from an input without an end stops a byte beyond its limit, and a save if no more is taken.
#[test]
fn no_end_and_no_room(rt: HostRuntime) {
    let mut reader = WatchedReader::new(repeat(7).take(u64::MAX));
    assert!(rt; load(rt.alloc(), &mut reader, 10, 0).err() == Some(LoadFault::TooLarge));
    assert!(rt; reader.into_reader().limit() == u64::MAX - 11);
    let mut room = [0u8; 5];
    assert!(rt; save(&mut room.as_mut_slice(), b"8 bytes.") == Err(5));
}
