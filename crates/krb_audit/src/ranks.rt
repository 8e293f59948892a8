//! How the entries of a keytab rank among those of their names.

ghost use Rattle.std.specs.Prelude.{◌≡◌, [], ◌∷◌, List, IfOk, length, map};
ghost use Rattle.krb_keytab.specs.Find.{placed_entries};
ghost use Rattle.krb_audit.specs.Ranks.{RankParts, mapped_after, rank_of, shown_rank};
ghost use Rattle.krb_audit.specs.Standings.{numbered_rows, rank_row};

use crate::newest::{Stamp, is_old, newest_of, newest_stamps};
use crate::rows::{Row, rows_of};
use crate::strong::strong_names;
use krb_keytab::Keytab;
use krb_wire::NoMemory;
use std::alloc::Allocator;
use std::marker::Model;
use std::vec::IntoIter;

/// How an entry ranks among those of its name.
#[derive(Clone, Copy, Debug)]
pub struct Rank {
    /// The number of the first of them. Entries are numbered from 0 in file order.
    pub first: u32,
    /// Their newest kvno.
    pub newest: u32,
    /// It is the first of them.
    pub is_first: bool,
    pub is_old: bool,
    /// None of them with the newest kvno has a strong encryption type.
    pub lacks_strong: bool,
}

/// The ranks of the entries that are still to come, in file order.
#[derive(Drop)]
pub struct Ranks<A: Allocator> {
    items: IntoIter<Rank, A>,
}

impl<A: Allocator> Model for Ranks<A> {
    ghost use Rattle.std.specs.Prelude.{List, map};
    ghost use Rattle.std.specs.Vec.Iter.{into_iter_items};
    ghost use Rattle.krb_audit.specs.Ranks.{RankParts, shown_rank};

    ghost Value = { List RankParts };

    ghost view = { λ r. map shown_rank (into_iter_items r.items) };
}

// Returns how the entry of a numbered row ranks.
fn rank_of(newest: &[Option<Stamp>], strong: &[bool], number: usize, row: Row) -> Rank
    ensures { shown_rank result ≡ rank_row newest.now strong.now number row }
{
    let first = row.first as usize;
    Rank {
        first: row.first,
        newest: newest_of(newest, row).map_or(0, |stamp| stamp.kvno),
        is_first: first == number,
        is_old: is_old(newest, row),
        lacks_strong: !strong.get(first).copied().unwrap_or(false),
    }
}

// Returns how the entries of rows rank.
fn ranks_of<A: Allocator + Copy>(
    alloc: A,
    newest: &[Option<Stamp>],
    strong: &[bool],
    rows: &[Row],
) -> Result<Vec<Rank, A>, NoMemory>
    ensures { IfOk result (λ ranks. map shown_rank ranks.items ≡ numbered_rows (rank_row newest.now strong.now) 0 rows.now) }
{
    let mut ranks = Vec::with_capacity(alloc, rows.len())?;
    'rows: for row in rows {
        let number = ranks.len();
        ranks.push(rank_of(newest, strong, number, *row))?;
    }
    Ok(ranks)
}

impl<A: Allocator + Copy> Ranks<A> {
    /// Returns those of the entries of a keytab.
    pub fn of<B: Allocator>(alloc: A, keytab: &Keytab<B>) -> Result<Ranks<A>, NoMemory>
        ensures { IfOk result (λ ranks. ranks
            ≡ mapped_after (rank_of (placed_entries keytab.now.state)) [] (placed_entries keytab.now.state)) }
    {
        let rows = rows_of(alloc, keytab)?;
        let newest = newest_stamps(alloc, &rows)?;
        let strong = strong_names(alloc, &rows, &newest)?;
        let items = ranks_of(alloc, &newest, &strong, &rows)?;
        Ok(Ranks {
            items: items.into_iter(),
        })
    }
}

impl<A: Allocator> Ranks<A> {
    /// Returns how many are left.
    pub fn len(&self) -> usize
        ensures { result ≡ length self.now }
    {
        self.items.len()
    }

    /// Returns the next one.
    pub fn take(&mut self) -> Rank
        ensures { (r : RankParts) (rest : List RankParts) → self.old ≡ r ∷ rest
            → (shown_rank result ≡ r) × (self.new ≡ rest) }
    {
        self.items.next().unwrap_or(NO_RANK)
    }
}

// What is taken where none is left.
const NO_RANK: Rank = Rank {
    first: 0,
    newest: 0,
    is_first: false,
    is_old: false,
    lacks_strong: false,
};
