//! The entries of a name that fit a version.

ghost use Rattle.std.specs.Prelude.{◌≡◌, List, find, option_map};
ghost use Rattle.krb_keytab.specs.Find.{PlacedEntry};
ghost use Rattle.krb_match.specs.Match.{etypes_of, is_new};
ghost use Rattle.krb_match.specs.Table.{AreUnited, earlier, first_of};

use crate::judgement::Etypes;
use arrayvec::ArrayVec;

/// The place and the enctype of the first entry of each enctype, of three groups.
#[derive(Clone, Copy)]
pub struct Fitting<'a> {
    pub one: &'a [(u32, u32)],
    pub two: &'a [(u32, u32)],
    pub three: &'a [(u32, u32)],
}

// Returns the earlier of two entries by their places.
fn earlier(one: Option<(u32, u32)>, other: Option<(u32, u32)>) -> Option<(u32, u32)>
    ensures { result ≡ earlier one other }
{
    match (one, other) {
        (Some(x), Some(y)) => Some(if y.0 < x.0 { y } else { x }),
        (None, other) => other,
        (one, None) => one,
    }
}

// Returns the first of them whose enctype is not among those found.
fn first_new(firsts: &[(u32, u32)], found: &[u32]) -> Option<(u32, u32)>
    ensures { result ≡ find (λ f. is_new found.now f.1) firsts.now }
{
    'firsts: for first in firsts {
        if !found.contains(&first.1) {
            return Some(*first);
        }
    }
    None
}

impl Fitting<'_> {
    /// Returns the place and the enctype of the first entry whose enctype is not among those found.
    pub fn next(&self, found: &[u32]) -> Option<(u32, u32)>
        ensures { (xs : List PlacedEntry) → AreUnited xs self.now
            → result ≡ option_map first_of (find (λ x. is_new found.now x.1.enctype) xs) }
    {
        let later = earlier(first_new(self.two, found), first_new(self.three, found));
        earlier(first_new(self.one, found), later)
    }

    /// Returns their enctypes.
    pub fn etypes(&self) -> Etypes
        ensures { (xs : List PlacedEntry) → AreUnited xs self.now → result ≡ etypes_of xs }
    {
        let mut found = ArrayVec::new();
        'turns: for _ in 0..9_usize {
            let Some((_, etype)) = self.next(found.as_slice()) else {
                return Etypes::of(found);
            };
            found.push(etype);
        }
        Etypes::of(found)
    }
}
