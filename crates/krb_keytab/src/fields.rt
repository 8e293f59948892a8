//! The fields of an entry, wherever they are stored.

ghost use Rattle.std.specs.Prelude.{◌<◌, ◌^◌};
ghost use Rattle.krb_keytab.specs.Form.{IsEntry};

use krb_wire::Name;
use std::marker::Model;

/// The fields of an entry, borrowed from where they are stored. Contracts see the entry.
#[derive(Drop)]
pub struct Fields<'a, N: Name> {
    pub principal: &'a N,
    pub timestamp: u32,
    pub kvno: u32,
    pub enctype: u16,
    pub key: &'a [u8],
}

impl<'a, N: Name> Model for Fields<'a, N> {
    ghost use Rattle.krb_keytab.specs.Entry.{EntryParts};

    ghost Value = { EntryParts };

    ghost view = { λ e. record {
      principal = N.parts e.principal.now;
      timestamp = e.timestamp;
      version = e.kvno;
      enctype = e.enctype;
      key = e.key.now;
    } };
}

// Numbers of these types are in range.
fn in_range(name_type: u32, timestamp: u32, kvno: u32, enctype: u16)
    ensures name_type { name_type < 2 ^ 32 }
    ensures timestamp { timestamp < 2 ^ 32 }
    ensures kvno { kvno < 2 ^ 32 }
    ensures enctype { enctype < 2 ^ 16 }
{}

impl<'a, N: Name> Fields<'a, N> {
    /// Each number is in the range of its type.
    pub fn numbers_fit(&self)
        ensures { IsEntry self.now }
    {
        let name_type = self.principal.name_type();
        in_range(name_type, self.timestamp, self.kvno, self.enctype);
    }
}
