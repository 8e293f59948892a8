//! The first entry of each name, kvno and enctype.

ghost use Rattle.std.specs.Prelude.{◌≡◌, ◌++◌, ◌∷◌, [], List, None, Some, OnOk, IfOk, option_map, if◌then◌else◌};
ghost use Rattle.std.specs.Option.{unwrap_or};
ghost use Rattle.std.specs.Str.{bytes_eq};
ghost use Rattle.krb_keytab.specs.Find.{PlacedEntry};
ghost use Rattle.krb_audit.specs.Before.{AreFirsts, Key, looked, same_key};
ghost use Rattle.krb_audit.specs.Findings.{first_alike};
ghost use Rattle.krb_audit.specs.Rows.{first_number};

use krb_keytab::EntryView;
use krb_wire::NoMemory;
use std::alloc::Allocator;
use std::cmp::Reverse;
use std::collections::BTreeMap;

/// A name, as the number of its first entry, a kvno and an enctype. Numbers fall from key to key: a new name, which has
/// the greatest, comes first in each node of a map.
pub type Key = (Reverse<u32>, u32, u16);

/// The first entry with the name, the kvno and the enctype of a later one.
#[derive(Clone, Copy)]
pub struct Alike {
    pub place: u32,
    pub has_same_key: bool,
}

/// Maps each `Key` to the place and the secret key of its first entry.
#[derive(Drop)]
pub struct Firsts<'a, A: Allocator> {
    map: BTreeMap<Key, (u32, &'a [u8]), A>,
}

impl<'a, A: Allocator + Copy> Firsts<'a, A> {
    /// Returns an empty map.
    pub fn new(alloc: A) -> Firsts<'a, A>
        ensures { (k : Key) → looked result k ≡ None }
    {
        Firsts {
            map: BTreeMap::new(alloc),
        }
    }

    // Adds the next entry of `key`. Returns how the first one compares to it, or `None` if it is the first.
    fn consider(
        &mut self,
        key: Key,
        place: u32,
        secret: &'a [u8],
    ) -> Result<Option<Alike>, NoMemory>
        ensures alike { IfOk result (λ alike. alike
            ≡ option_map (λ v. record { place = v.0; has_same_key = bytes_eq v.1 secret.now }) (looked self.old key)) }
        ensures kept { OnOk result ((k : Key) → looked self.new k
            ≡ (if same_key key k then Some (unwrap_or (looked self.old key) (place, secret.now)) else looked self.old k)) }
    {
        let Some(first) = self.map.insert(key, (place, secret))? else {
            return Ok(None);
        };
        // The first entry stays in the map.
        let _ = self.map.insert(key, first)?;
        Ok(Some(Alike {
            place: first.0,
            has_same_key: first.1 == secret,
        }))
    }

    /// Adds the next entry, whose name's first entry has that number. Returns how the first one that is alike compares to
    /// it, or `None` if it is the first.
    pub fn next(
        &mut self,
        first: u32,
        place: u32,
        entry: &EntryView<'a>,
    ) -> Result<Option<Alike>, NoMemory>
        ensures { (all before : List PlacedEntry) → AreFirsts all before (looked self.old)
            → first_number entry.now.principal all ≡ Some first
            → IfOk result (λ alike. (alike ≡ first_alike before (place, entry.now))
            × AreFirsts all (before ++ (place, entry.now) ∷ []) (looked self.new)) }
    {
        let key = (Reverse(first), entry.kvno(), entry.enctype());
        Ok(self.consider(key, place, entry.key())?)
    }
}
