//! The stages of a save: of the new file beside an old one, and of an old file in place; and laws of these.

ghost use Rattle.krb_disk.specs.Disk.{EachMomentIsSafe, Saves};
ghost use Rattle.krb_disk.specs.InPlace.{EachMomentInPlaceIsSafe, SavesInPlace};

use crate::looks::Found;

/// The stage of a new file: the last call on it, and what that returned.
#[derive(Clone, Copy, Drop)]
pub enum Stage {
    Made,
    Locked,
    /// It was locked, and then found at its path.
    Agreed,
    /// Its handle was duplicated, and is no standard stream.
    Held,
    /// It has the bytes.
    Written,
    /// Since then the system reported this of it.
    Examined(Found),
    /// It has the mode due to a file that replaces this one, or none.
    Permitted(Option<Found>),
    Synced(Option<Found>),
    /// Since it was synced, no program had a lock to write on the old file.
    Quiet(Option<Found>),
    /// And then it was found at its path.
    Ours(Option<Found>),
    /// And then the old file was found as it was seen.
    Same(Option<Found>),
    /// It was found at its path, and is not to be saved.
    Ended,
    /// It was renamed over the old file, it is no longer at its path, or a comparison or a call failed.
    Lost,
}

/// The stage of the old file in a save in place: the last call on it, and what that returned.
#[derive(Clone, Copy, Drop, PartialEq, Eq)]
pub enum PlaceStage {
    /// Nothing of it is known.
    Untouched,
    /// No program had it locked.
    Quiet,
    /// And then it was found as it was loaded.
    Same,
    /// The bytes past its old end were written.
    Extended,
    /// And synced.
    Lengthened,
    /// And then no program had it locked.
    Unlocked,
    /// It was found with just these bytes past the old ones, or has none to be added: old bytes may be written over.
    Ready,
    /// Those that differ were written over.
    Overwritten,
    /// Then it was cut to its new length, if that is less.
    Cut,
    /// And synced: it has the new bytes.
    Finished,
    /// Then its name led to it: it is saved.
    Saved,
    /// A call failed, or another program has it; each old byte is there, and perhaps more.
    Whole,
    /// Then it was cut to its old length.
    Trimmed,
    /// And synced: it has its old bytes.
    Back,
    /// That failed: each old byte is there, and perhaps more.
    Left,
    /// The write over old bytes failed, or another program changed the length.
    Mixed,
    /// The cut, or the sync after it, failed.
    Torn,
    /// After that the old bytes were written back.
    Refilled,
    /// They were not: they have no room, perhaps.
    Lacking,
    /// Then it was cut to its old length, which gives room.
    Cleared,
    /// An old byte may be gone.
    Lost,
}

/// After any number of the calls of a save, interleaved with those of other programs, and a crash, the saved name
/// has the whole new file with the mode due, or what other programs put there. The last call of a save before its rename
/// compares the old file, after the look at its locks.
#[tactic(auto, using(crate::proofs::Alone::saves, crate::proofs::Moments::each_moment))]
pub fn each_moment_is_safe()
    ensures safe { EachMomentIsSafe }
    ensures some { Saves }
{}

/// After any number of the calls of a save in place, of which any may fail, and a crash, each old byte is there, or the
/// new end of the file is. A save that is done left the new bytes, and one whose restoring is done the old ones.
#[tactic(auto, using(crate::proofs::Alone::saves_in_place, crate::proofs::PlaceMoments::each_moment_in_place))]
pub fn each_moment_in_place_is_safe()
    ensures safe { EachMomentInPlaceIsSafe }
    ensures some { SavesInPlace }
{}
