//! Configuration values to set.

ghost use Rattle.std.specs.Prelude.{◌≡◌, ◌≤◌, ◌<◌, ◌^◌, true, false, length, option_copied};
ghost use Rattle.std.specs.List.{flat_map};
ghost use Rattle.krb_wire.specs.declared.format.Order.TheVariants.{Big};
ghost use Rattle.krb_wire.specs.Spelling.{data32};
ghost use Rattle.krb_ccache.specs.declared.version.Version.TheVariants.{V4};
ghost use Rattle.krb_ccache.specs.Credential.{credential};
ghost use Rattle.krb_ccache.specs.SetConfig.{text_component, entry_of};

use crate::credential::spelling::sum_within;
use krb_wire::{Name, cc_principal_len};
use std::marker::Model;

// The length of an entry without its client and the bytes of its key, principal and value: the lengths and the fixed
// texts of its server, its empty key, its times and flags, and the lengths of its lists and tickets.
const FIXED_LEN: usize = 96;

/// A configuration value to set for the default principal, and its name: a key, and optionally a principal's text.
#[derive(Drop)]
pub struct Setting<'a> {
    pub key: &'a [u8],
    pub principal: Option<&'a [u8]>,
    pub value: &'a [u8],
}

impl<'a> Model for Setting<'a> {
    ghost use Rattle.std.specs.Prelude.{option_copied};
    ghost use Rattle.krb_ccache.specs.SetConfig.{SettingParts};

    ghost Value = { SettingParts };

    ghost view = { λ s. record { key = s.key.now; principal = option_copied s.principal; value = s.value.now } };
}

// Returns the length of the component of a principal's text: 0 if there is none.
fn text_len(text: Option<&[u8]>) -> usize
    ensures { result ≡ length (flat_map (data32 Big) (text_component (option_copied text.entry))) }
{
    match text {
        None => 0,
        Some(text) => 4 + text.len(),
    }
}

impl<'a> Setting<'a> {
    /// Returns whether its entry takes at most `most` bytes.
    pub(crate) fn fits_within<N: Name>(&self, owner: &N, most: usize) -> bool
        requires { most ≤ 2 ^ 30 }
        ensures yes { result ≡ true → length (credential V4 (entry_of (N.parts owner.now) self.now)) ≤ most }
        ensures no { result ≡ false → most < length (credential V4 (entry_of (N.parts owner.now) self.now)) }
    {
        let Some(owner_len) = cc_principal_len(owner) else {
            return false;
        };
        let lens = [
            FIXED_LEN,
            owner_len as usize,
            self.key.len(),
            text_len(self.principal),
            self.value.len(),
        ];
        sum_within(&lens, most).is_some()
    }
}
