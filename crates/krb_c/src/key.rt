//! The lengths of keys.

ghost use Rattle.std.specs.Prelude.{◌≡◌, length};
ghost use Rattle.krb_text.specs.Etype.{is_key_size};

use krb_text::key_size;

/// True if a key of the enctype may have this length. Any may, if the enctype is not in the table.
pub fn may_be(enctype: u16, key: &[u8]) -> bool
    ensures { result ≡ is_key_size enctype (length key.now) }
{
    key_size(enctype).is_none_or(|size| key.len() == size)
}
