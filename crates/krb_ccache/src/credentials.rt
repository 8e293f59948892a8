//! Iterators over the credentials of a cache.

ghost use Rattle.std.specs.Prelude.{◌≡◌, [], ◌∷◌, MatchOption};
ghost use Rattle.std.specs.Iterator.{YieldsFirst, item_count};
ghost use Rattle.krb_ccache.specs.Store.{if_live};
ghost use Rattle.krb_ccache.specs.Credentials.{GivesCredential, live_from, live_at};

use crate::cells::bytes_fit;
use crate::credential::view::{CredView, split_credential};
use crate::version::Version;
use std::marker::Model;

/// An iterator over the credentials from `place` on, removed ones too, with their places. `bytes` holds nothing else,
/// so each credential is read once.
#[derive(Drop)]
pub struct AllCredentials<'a> {
    pub version: Version,
    pub place: usize,
    pub bytes: &'a [u8],
}

impl<'a> Model for AllCredentials<'a> {
    ghost use Rattle.std.specs.Prelude.{◌≤◌, ◌^◌, ◌+◌, length};
    ghost use Rattle.krb_cells.specs.Contents.{contents};
    ghost use Rattle.krb_ccache.specs.Store.{credentials_format};
    ghost use Rattle.krb_ccache.specs.Credentials.{CredentialsFrom};

    ghost Value = { CredentialsFrom };

    ghost view = { λ c. record {
      version = c.version;
      place = c.place;
      cells = (contents (credentials_format c.version) c.bytes.now).cells;
    } };

    ghost invariant = { λ c. c.place + length c.bytes.now ≤ 2 ^ 30 };
}

impl<'a> Iterator for AllCredentials<'a> {
    type Item = (usize, CredView<'a>);

    ghost next_gives = { GivesCredential (λ c. c) };

    ghost remaining = { item_count (λ c. c.cells) };

    fn next(&mut self) -> Option<(usize, CredView<'a>)> {
        bytes_fit(self.bytes);
        let (credential, after) = split_credential(self.version, self.bytes)?;
        let at = self.place;
        self.place = at + (self.bytes.len() - after.len());
        self.bytes = after;
        Some((at, credential))
    }
}

// Returns the credential if it is live, or `None` if it has the removed mark.
fn live(credential: CredView<'_>) -> Option<CredView<'_>>
    ensures { result ≡ if_live credential.entry }
{
    if credential.is_marked() {
        return None;
    }
    Some(credential)
}

impl<'a> AllCredentials<'a> {
    /// Advances past the next live credential and returns it with its place, or `None` if none is left.
    pub fn next_live(&mut self) -> Option<(u32, CredView<'a>)>
        ensures { MatchOption result ((live_from self.old ≡ []) × (live_from self.new ≡ []))
            (λ x. live_from self.old ≡ x ∷ live_from self.new) }
    {
        while let Some((at, credential)) = self.next() {
            if !credential.is_marked() {
                return Some((at as u32, credential));
            }
        }
        None
    }

    /// Returns the live credential at `place`, if there is one.
    pub fn find(self, place: usize) -> Option<CredView<'a>>
        ensures { result ≡ live_at self.entry place }
    {
        for (at, credential) in self {
            if at == place {
                return live(credential);
            }
        }
        None
    }
}

/// An iterator over the live credentials with their places, in file order, up to the end or the fault. Contracts see
/// those still to come.
#[derive(Drop)]
pub struct Credentials<'a> {
    all: AllCredentials<'a>,
}

impl<'a> Model for Credentials<'a> {
    ghost use Rattle.std.specs.Prelude.{List};
    ghost use Rattle.krb_ccache.specs.Store.{PlacedCredential};
    ghost use Rattle.krb_ccache.specs.Credentials.{live_from};

    ghost Value = { List PlacedCredential };

    ghost view = { λ e. live_from e.all };
}

impl<'a> Credentials<'a> {
    /// Returns an iterator over those of `all` that are live.
    pub(crate) fn of(all: AllCredentials<'a>) -> Credentials<'a>
        ensures { result ≡ live_from all.entry }
    {
        Credentials { all }
    }
}

impl<'a> Iterator for Credentials<'a> {
    type Item = (u32, CredView<'a>);

    ghost next_gives = { YieldsFirst (λ s. s) };

    ghost remaining = { item_count (λ s. s) };

    fn next(&mut self) -> Option<(u32, CredView<'a>)> {
        self.all.next_live()
    }
}
