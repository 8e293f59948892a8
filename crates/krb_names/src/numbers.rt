//! Numbers of the keys of a map.

ghost use Rattle.std.specs.Prelude.{IfOk};
ghost use Rattle.krb_names.specs.Numbers.{GetsNumber};

use krb_wire::NoMemory;
use std::alloc::Allocator;
use std::collections::BTreeMap;

/// Returns the number of a key. A new one gets the number `next`.
pub fn number_of<'t, A: Allocator + Clone>(
    numbers: &mut BTreeMap<(u64, &'t [u8]), u32, A>,
    key: (u64, &'t [u8]),
    next: u32,
) -> Result<u32, NoMemory>
    ensures { IfOk result (GetsNumber numbers.old numbers.new key.entry next) }
{
    Ok(*numbers.entry(key)?.or_insert(next))
}
