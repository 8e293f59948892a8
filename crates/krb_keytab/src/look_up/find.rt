//! Looking up an entry.

ghost use Rattle.std.specs.Prelude.{◌≡◌};
ghost use Rattle.krb_keytab.specs.Find.{placed_entries, find_result};
ghost use Rattle.krb_keytab.specs.LookUp.{IsFoundAmong, IsPrefix};

use crate::cells::KtCell;
use crate::entry::EntryView;
use crate::keytab::Keytab;
use crate::look_up::{LookUp, Query};
use crate::put::bytes_fit;
use krb_walk::Code;
use krb_wire::{KtFormat, Name, kt_principal_len, put_kt_principal};
use std::alloc::Allocator;

// A name spelled in more bytes is looked up without a prefix.
const ROOM: usize = 64;

// Considers all entries of a keytab of this format. A record without the prefix has another name, and is skipped.
#[inline(always)]
fn consider_all_in<'a, N: Name, A: Allocator>(
    format: KtFormat,
    keytab: &'a Keytab<A>,
    query: &Query<'_, N>,
    prefix: &[u8],
) -> LookUp<'a>
    requires format { format ≡ keytab.now.state.format }
    requires prefix { IsPrefix keytab.now.state.format (N.parts query.now.name.now) prefix.now }
    ensures { IsFoundAmong (N.parts query.now.name.now) query.now.kvno query.now.enctype
        (placed_entries keytab.entry.now.state) result.named result.best }
{
    let mut look_up = LookUp {
        named: false,
        best: None,
    };
    for (place, cell) in keytab.cells_in(format) {
        if let KtCell::Live(bytes) = cell {
            bytes_fit(bytes);
            if bytes.starts_with(prefix) {
                look_up.consider(query, format, place as u32, bytes);
            }
        }
    }
    look_up
}

// Like `consider_all_in`, for any format: in each arm it is known, so that the loop does not check it.
fn consider_all<'a, N: Name, A: Allocator>(
    keytab: &'a Keytab<A>,
    query: &Query<'_, N>,
    prefix: &[u8],
) -> LookUp<'a>
    requires { IsPrefix keytab.now.state.format (N.parts query.now.name.now) prefix.now }
    ensures { IsFoundAmong (N.parts query.now.name.now) query.now.kvno query.now.enctype
        (placed_entries keytab.entry.now.state) result.named result.best }
{
    match keytab.format() {
        KtFormat::V2 => consider_all_in(KtFormat::V2, keytab, query, prefix),
        KtFormat::V1(order) => consider_all_in(KtFormat::V1(order), keytab, query, prefix),
    }
}

impl<A: Allocator> Keytab<A> {
    /// Returns the first entry in file order with this name, kvno and enctype, with its place. Kvno 0 selects the
    /// highest, enctype 0 any. A damaged keytab refuses. One pass, which takes no memory.
    pub fn find<N: Name>(
        &self,
        name: &N,
        kvno: u32,
        enctype: u16,
    ) -> Result<(u32, EntryView<'_>), Code>
        ensures { result ≡ find_result self.now.state (N.parts name.now) kvno enctype }
    {
        if self.fault().is_some() {
            return Err(Code::Damaged);
        }
        let query = Query {
            name,
            kvno,
            enctype,
        };
        let mut room = [0; ROOM];
        let prefix = prefix_of(self.format(), name, &mut room);
        consider_all(self, &query, prefix).answer()
    }
}

/// Returns the prefix of each entry of the name: the spelling of the name without its name type, which does not count.
/// It is written into `room`, and is empty if the whole spelling does not fit, or there is none.
pub fn prefix_of<'a, N: Name>(format: KtFormat, name: &N, room: &'a mut [u8]) -> &'a [u8]
    ensures { IsPrefix format (N.parts name.now) result.now }
{
    match kt_principal_len(format, name) {
        Some(len) if len <= room.len() as u64 => {
            let end = put_kt_principal(format, name, room, 0);
            let name_type = if format.has_name_type() { 4 } else { 0 };
            &room[..end - name_type]
        }
        _ => &[],
    }
}
