//! The newest entry of each name, and which of two entries of a name is the newer one.

ghost use Rattle.std.specs.Prelude.{◌≡◌, List, IfOk, None, get_or};
ghost use Rattle.krb_keytab.specs.Find.{PlacedEntry};
ghost use Rattle.krb_audit.specs.Rows.{AreRows, newer_stamp, stamp_of, stamped};
ghost use Rattle.krb_audit.specs.Standings.{AreNewest, is_old_row};
ghost use Rattle.krb_audit.specs.Newest.{has_wrapped, is_newer};

use crate::by_name::{Kept, by_name};
use crate::rows::Row;
use krb_keytab::EntryView;
use krb_wire::NoMemory;
use std::alloc::Allocator;

/// The kvno and the timestamp of an entry.
#[derive(Clone, Copy, Debug)]
pub struct Stamp {
    pub kvno: u32,
    pub timestamp: u32,
}

fn has_wrapped(small: u32, large: u32) -> bool
    ensures { result ≡ has_wrapped small large }
{
    small < 128 && large > 240
}

impl Stamp {
    /// Returns the stamp of an entry.
    pub fn of(entry: &EntryView<'_>) -> Stamp
        ensures { result ≡ stamp_of entry.now }
    {
        Stamp {
            kvno: entry.kvno(),
            timestamp: entry.timestamp(),
        }
    }

    /// Returns whether a later entry of the name replaces this one as the newest.
    pub fn is_older_than(self, later: Stamp) -> bool
        ensures { result ≡ is_newer (stamped self) (stamped later) }
    {
        if has_wrapped(later.kvno, self.kvno) {
            self.timestamp <= later.timestamp
        } else if has_wrapped(self.kvno, later.kvno) {
            self.timestamp < later.timestamp
        } else {
            self.kvno < later.kvno
        }
    }
}

// Returns the newer of two stamps, or the only one.
fn newer(newest: Option<Stamp>, later: Stamp) -> Option<Stamp>
    ensures { result ≡ newer_stamp newest later }
{
    match newest {
        Some(newest) if newest.is_older_than(later) => Some(later),
        Some(newest) => Some(newest),
        None => Some(later),
    }
}

// Keeps the stamp of each name's newest entry.
#[derive(Clone, Copy)]
struct NewestStamp;

impl Kept for NewestStamp {
    ghost use Rattle.krb_audit.specs.Rows.{newer_stamp};

    type Value = Option<Stamp>;

    ghost step = { λ _ newest r. newer_stamp newest r.stamp };

    fn step(&self, newest: Option<Stamp>, row: Row) -> Option<Stamp> {
        newer(newest, row.stamp)
    }
}

/// Returns a list that has, at the number of each name, the stamp of its newest entry among those of these rows.
#[tactic(auto, using(crate::proofs::NewestStamps::are_newest))]
pub fn newest_stamps<A: Allocator + Copy>(
    alloc: A,
    rows: &[Row],
) -> Result<Vec<Option<Stamp>, A>, NoMemory>
    ensures { (all xs : List PlacedEntry) → AreRows all xs rows.now → IfOk result (λ newest. AreNewest all xs newest.items) }
{
    by_name(alloc, rows, None, &NewestStamp)
}

/// Returns the stamp of the newest entry of a row's name.
pub fn newest_of(newest: &[Option<Stamp>], row: Row) -> Option<Stamp>
    ensures { result ≡ get_or newest.now row.first None }
{
    newest.get(row.first as usize).copied().unwrap_or(None)
}

/// Returns whether the entry of a row is old.
pub fn is_old(newest: &[Option<Stamp>], row: Row) -> bool
    ensures { result ≡ is_old_row newest.now row }
{
    newest_of(newest, row).is_some_and(|newest| row.stamp.kvno != newest.kvno)
}
