//! The times of a credential.

ghost use Rattle.std.specs.Prelude.{◌≡◌};
ghost use Rattle.krb_wire.specs.Reading.{Gives};
ghost use Rattle.krb_ccache.specs.Credential.{is_mark, times_at};

use krb_wire::{Order, split_u32};

/// The four times of a credential, in seconds since 1970-01-01T00:00:00Z; 0 if there is none.
#[derive(Clone, Copy, Debug, PartialEq, Eq)]
pub struct Times {
    pub authtime: u32,
    pub starttime: u32,
    pub endtime: u32,
    pub renew_till: u32,
}

/// The authtime of the removed mark.
pub const MARKED_AUTHTIME: u32 = u32::MAX;

/// The endtime of the removed mark.
pub const MARKED_ENDTIME: u32 = 0;

impl Times {
    /// Returns whether they have the removed mark.
    pub fn are_marked(self) -> bool
        ensures { result ≡ is_mark self }
    {
        self.endtime == MARKED_ENDTIME && self.authtime == MARKED_AUTHTIME
    }
}

/// Returns the times that the bytes begin with, if any, and the bytes after them.
#[inline(always)]
#[tactic(auto, unfolding(crate::specs::Credential::times_at))]
pub fn split_times(bytes: &[u8]) -> Option<(Times, &[u8])>
    ensures { Gives (λ x. (x.0, x.1.now)) result (times_at bytes.now) }
{
    let (authtime, rest) = split_u32(Order::Big, bytes)?;
    let (starttime, rest) = split_u32(Order::Big, rest)?;
    let (endtime, rest) = split_u32(Order::Big, rest)?;
    let (renew_till, rest) = split_u32(Order::Big, rest)?;
    Some((
        Times {
            authtime,
            starttime,
            endtime,
            renew_till,
        },
        rest,
    ))
}
