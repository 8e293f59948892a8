//! Calls of keytabs that no program makes.

use super::made::{B, HEAD, HOST, b, keytab_of, name_of};
use krb_keytab::{Indexed, Keytab};
use krb_walk::Refusal;
use krb_wire::{KtFormat, Limits, Order};
use std::alloc::Global;
use std::test::Fail;

fn indexed_of(alloc: Global, pieces: &[&[u8]]) -> Result<Indexed<Global>, Refusal> {
    let made = Indexed::of(alloc, keytab_of(alloc, pieces)?);
    made.map_err(|(fault, _)| Refusal::from(fault))
}

/// The length of a hole of 47 bytes.
const HOLE: &[u8] = b"\xff\xff\xff\xd1";

/// That hole, and one of 41 bytes.
const TWO: &[&[u8]] = &[HEAD, HOLE, &[0; 47], b"\xff\xff\xff\xd7", &[0; 41]];

/// Entries at 2 and 128, a hole of 20 bytes at 53, and one of 47 at 77.
const FOUR: &[&[u8]] = &[HEAD, HOST, b"\xff\xff\xff\xec", &[0; 20], HOLE, &[0; 47], B];

/// The first hole that is large enough, and how many levels of the tree are read: of five cells it has a fourth.
#[test]
fn the_first_hole(rt: HostRuntime) -> Result<(), Fail> {
    let alloc = rt.alloc();
    let new = Keytab::create(alloc, KtFormat::V1(Order::Little), Limits::usual())?;
    assert!(rt; new.image() == b"\x05\x01".as_slice());
    for (pieces, need, found) in [
        ([HEAD].as_slice(), 1, (None, 1)),
        (TWO, 41, (Some(2), 2)),
        (FOUR, 41, (Some(77), 3)),
        (FOUR, 20, (Some(53), 3)),
        (FOUR, 0, (Some(53), 3)),
        (FOUR, 48, (None, 1)),
    ] {
        assert!(rt; indexed_of(alloc, pieces)?.first_fit(need) == found);
    }
    let mut indexed = indexed_of(alloc, FOUR)?;
    let mut entry = b(alloc)?;
    entry.principal = name_of(alloc, b"host/ab@R")?;
    assert!(rt; (indexed.add(&entry)?, indexed.first_fit(41)) == (173, (Some(77), 4)));
    Ok(())
}
