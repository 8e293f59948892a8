//! The parts of a file that a save in place writes.

ghost use Rattle.std.specs.Prelude.{◌≡◌, ◌≢◌, ◌↔◌, ℕ, ◌≤◌, ◌<◌, ◌-◌, false, IsTrue, length, nat_lt, slice_get};
ghost use Rattle.krb_disk.specs.Content.{IsPatch};

/// How many bytes are compared at once.
const PIECE: usize = 512;

/// The bytes of a file before and after a save, and the places from which and up to which new ones are written over old ones:
/// from the first that differs to the last one that does, among those that both have.
#[derive(Clone, Copy)]
pub struct Patch<'a> {
    pub before: &'a [u8],
    pub after: &'a [u8],
    pub first: usize,
    pub last: usize,
}

fn is_same_part(old: &[u8], new: &[u8], from: usize, to: usize) -> bool
    requires { (from ≤ to) × (to ≤ length old.now) × (to ≤ length new.now) }
    ensures { IsTrue result → (i : ℕ) → from ≤ i → i < to → slice_get old.now i ≡ slice_get new.now i }
{
    old[from..to] == new[from..to]
}

// Returns how many of the first `most` bytes are alike before the first that differs.
fn same_front(old: &[u8], new: &[u8], most: usize) -> usize
    requires { (most ≤ length old.now) × (most ≤ length new.now) }
    ensures within { result ≤ most }
    ensures same { (i : ℕ) → i < result → slice_get old.now i ≡ slice_get new.now i }
    ensures differs { result < most → slice_get old.now result ≢ slice_get new.now result }
{
    let mut at = 0;
    while at < most && old[at] == new[at] {
        let is_piece = PIECE <= most - at && is_same_part(old, new, at, at + PIECE);
        at += if is_piece { PIECE } else { 1 };
    }
    at
}

// Returns the place after the last of the first `most` bytes that differs, or `first`.
fn after_last(old: &[u8], new: &[u8], first: usize, most: usize) -> usize
    requires { (first ≤ most) × (most ≤ length old.now) × (most ≤ length new.now) }
    ensures within { (first ≤ result) × (result ≤ most) }
    ensures same { (i : ℕ) → result ≤ i → i < most → slice_get old.now i ≡ slice_get new.now i }
    ensures differs { first < result → slice_get old.now (result - 1) ≢ slice_get new.now (result - 1) }
{
    let mut at = most;
    while first < at && old[at - 1] == new[at - 1] {
        let is_piece = PIECE <= at - first && is_same_part(old, new, at - PIECE, at);
        at -= if is_piece { PIECE } else { 1 };
    }
    at
}

impl<'a> Patch<'a> {
    pub fn between(before: &'a [u8], after: &'a [u8]) -> Patch<'a>
        ensures before { result.before.now ≡ before.now }
        ensures after { result.after.now ≡ after.now }
        ensures patch { IsPatch before.now after.now result.first result.last }
    {
        let most = before.len().min(after.len());
        let first = same_front(before, after, most);
        let last = after_last(before, after, first, most);
        Patch {
            before,
            after,
            first,
            last,
        }
    }

    pub fn grows(&self) -> bool
        ensures { result ≡ nat_lt (length self.now.before.now) (length self.now.after.now) }
    {
        self.before.len() < self.after.len()
    }

    pub fn shrinks(&self) -> bool
        ensures { result ≡ nat_lt (length self.now.after.now) (length self.now.before.now) }
    {
        self.after.len() < self.before.len()
    }

    /// Returns whether no byte that both files have differs, and none is to be cut off.
    pub fn is_done(&self) -> bool
        ensures { IsTrue result ↔ ((self.now.first ≡ self.now.last)
            × (nat_lt (length self.now.after.now) (length self.now.before.now) ≡ false)) }
    {
        self.first == self.last && !self.shrinks()
    }

    pub fn end(&self) -> &'a [u8] {
        self.after.get(self.before.len()..).unwrap_or(&[])
    }
}
