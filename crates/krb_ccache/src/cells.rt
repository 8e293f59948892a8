//! Credentials as cells of a store.

ghost use Rattle.std.specs.Prelude.{◌≡◌, option_copied};
ghost use Rattle.krb_ccache.specs.Credential.{is_marked};
ghost use Rattle.krb_ccache.specs.Laws.{AreBytes};
ghost use Rattle.krb_ccache.specs.Store.{live_by};

use crate::credential::view::{CredView, split_credential};
use crate::version::Version;
use krb_cells::{CellFormat, CellView};

/// Shows that each byte of a slice is below 256.
pub fn bytes_fit(bytes: &[u8])
    ensures { AreBytes bytes.now }
{}

// Returns `text` if the credential is live, or `None` if it has the removed mark.
fn live_text<'a>(credential: &CredView<'_>, text: &'a [u8]) -> Option<&'a [u8]>
    ensures { option_copied result ≡ live_by (is_marked credential.now) text.now }
{
    if credential.is_marked() {
        return None;
    }
    Some(text)
}

impl CellFormat for Version {
    ghost use Rattle.krb_cells.specs.Cells.{seen_in};
    ghost use Rattle.krb_ccache.specs.Store.{credentials_format, store_cell};

    ghost cells = { λ v. seen_in (credentials_format v) (store_cell v) };

    fn first<'b>(self, bytes: &'b [u8]) -> Option<CellView<'b>> {
        bytes_fit(bytes);
        let (credential, after) = split_credential(self, bytes)?;
        let width = bytes.len() - after.len();
        Some(CellView {
            width,
            live: live_text(&credential, bytes.split_at(width).0),
        })
    }
}
