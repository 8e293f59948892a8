//! Groups of entries: those of a name, and of a version and an enctype unless these are left out.

ghost use Rattle.std.specs.Prelude.{◌≡◌, IfOk, OnOk, Some};
ghost use Rattle.std.specs.Option.{option_map_or};
ghost use Rattle.krb_match.specs.Table.{IsAdded, IsNoted, firsts_of, group_in, grown, is_first_in, newer, seen_group};

use krb_audit::Stamp;
use krb_keytab::EntryView;
use krb_wire::NoMemory;
use std::alloc::Allocator;
use std::collections::BTreeMap;

/// What is kept of some entries.
#[derive(Drop)]
pub struct Group<A: Allocator> {
    /// The stamp of the newest.
    newest: Stamp,
    /// The place and the enctype of the first of each enctype, in file order.
    firsts: Vec<(u32, u32), A>,
}

/// The number of a name, a version and an enctype.
pub type GroupKey = (usize, Option<u32>, Option<u32>);

pub type Groups<A> = BTreeMap<GroupKey, Group<A>, A>;

// Returns the newer of two stamps, the second of which is of a later entry.
fn newer(newest: Stamp, later: Stamp) -> Stamp
    ensures { result ≡ newer newest later }
{
    if newest.is_older_than(later) {
        return later;
    }
    newest
}

impl<A: Allocator> Group<A> {
    // Adds an entry, which may be the first of its enctype.
    fn push(&mut self, is_first: bool, place: u32, entry: &EntryView<'_>) -> Result<(), NoMemory>
        ensures { OnOk result (Some (seen_group self.new) ≡ grown is_first (Some (seen_group self.old)) (place, entry.now)) }
    {
        if is_first {
            self.firsts.push((place, u32::from(entry.enctype())))?;
        }
        self.newest = newer(self.newest, Stamp::of(entry));
        Ok(())
    }
}

/// Returns the place and the enctype of the first entry of each enctype of a group.
pub fn firsts<A: Allocator>(groups: &Groups<A>, key: GroupKey) -> &[(u32, u32)]
    ensures { result.now ≡ firsts_of (group_in groups.now key) }
{
    match groups.get(&key) {
        Some(group) => &group.firsts,
        None => &[],
    }
}

/// Returns the newest version of a group, or 0.
pub fn newest<A: Allocator>(groups: &Groups<A>, key: GroupKey) -> u32
    ensures { result ≡ option_map_or (λ g. g.0.kvno) (group_in groups.now key) 0 }
{
    groups.get(&key).map_or(0, |group| group.newest.kvno)
}

// Adds an entry to a group, and returns whether it is the first of its enctype: that given, or else whether none was before.
fn add<A: Allocator + Copy>(
    groups: &mut Groups<A>,
    alloc: A,
    key: GroupKey,
    is_first: Option<bool>,
    place: u32,
    entry: &EntryView<'_>,
) -> Result<bool, NoMemory>
    ensures is_first { IfOk result (λ new. new ≡ is_first_in is_first (group_in groups.old key)) }
    ensures added { OnOk result (IsAdded key is_first (place, entry.now) groups.old groups.new) }
{
    let newest = Stamp::of(entry);
    let firsts = Vec::new(alloc);
    let group = groups.entry(key)?.or_insert(Group { newest, firsts });
    let new = is_first.unwrap_or(group.firsts.as_slice().is_empty());
    group.push(new, place, entry)?;
    Ok(new)
}

/// Adds an entry of the name with that number to each of its groups.
pub fn note<A: Allocator + Copy>(
    groups: &mut Groups<A>,
    alloc: A,
    number: usize,
    place: u32,
    entry: &EntryView<'_>,
) -> Result<(), NoMemory>
    ensures { OnOk result (IsNoted number (place, entry.now) groups.old groups.new) }
{
    let kvno = Some(entry.kvno());
    let etype = Some(u32::from(entry.enctype()));
    let new = add(groups, alloc, (number, None, etype), None, place, entry)?;
    add(groups, alloc, (number, None, None), Some(new), place, entry)?;
    let new = add(groups, alloc, (number, kvno, etype), None, place, entry)?;
    add(groups, alloc, (number, kvno, None), Some(new), place, entry)?;
    Ok(())
}
