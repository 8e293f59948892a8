//! Look-ups of configuration entries.

ghost use Rattle.std.specs.Prelude.{◌≡◌, option_copied};
ghost use Rattle.krb_ccache.specs.Config.{is_match, same_text};

use crate::config::config_name;
use crate::credential::view::CredView;
use krb_wire::{PrincipalView, same_name};
use std::marker::Model;

/// A query for configuration entries: their owner, their key, and optionally a principal's text.
#[derive(Drop)]
pub struct Query<'a> {
    pub owner: &'a PrincipalView<'a>,
    pub key: &'a [u8],
    pub principal: Option<&'a [u8]>,
}

impl<'a> Model for Query<'a> {
    ghost use Rattle.std.specs.Prelude.{option_copied};
    ghost use Rattle.krb_ccache.specs.Config.{QueryParts};

    ghost Value = { QueryParts };

    ghost view = { λ q. record { owner = q.owner.now; key = q.key.now; principal = option_copied q.principal } };
}

// Returns whether two texts are the same, or both are absent.
fn same_text(one: Option<&[u8]>, other: Option<&[u8]>) -> bool
    ensures { result ≡ same_text (option_copied one.entry) (option_copied other.entry) }
{
    match (one, other) {
        (None, None) => true,
        (Some(one), Some(other)) => one == other,
        _ => false,
    }
}

impl<'a> Query<'a> {
    /// Returns whether a credential is a configuration entry of this owner, key and principal.
    pub fn matches(&self, credential: &CredView<'_>) -> bool
        ensures { result ≡ is_match self.now credential.now }
    {
        let Some(name) = config_name(credential) else {
            return false;
        };
        name.key == self.key
            && same_text(name.principal, self.principal)
            && same_name(self.owner, credential.client())
    }
}
