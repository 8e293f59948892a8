//! Entries that own their memory.

ghost use Rattle.std.specs.Prelude.{◌≡◌, IfOk};

use crate::entry::EntryView;
use crate::fields::Fields;
use krb_wire::{NoMemory, Principal, copy_name};
use std::alloc::Allocator;
use std::marker::Model;

/// An entry that owns its memory (MIT krb5, "Keytab file format"). Contracts see the entry, not where it is stored.
#[derive(Drop)]
pub struct NewEntry<A: Allocator> {
    pub principal: Principal<A>,
    /// Seconds since 1970-01-01T00:00:00Z.
    pub timestamp: u32,
    /// The key version.
    pub kvno: u32,
    pub enctype: u16,
    pub key: Vec<u8, A>,
}

impl<A: Allocator> Model for NewEntry<A> {
    ghost use Rattle.krb_keytab.specs.Entry.{EntryParts};
    ghost use Rattle.krb_wire.specs.Reading.{principal_parts};

    ghost Value = { EntryParts };

    ghost view = { λ e. record {
      principal = principal_parts e.principal;
      timestamp = e.timestamp;
      version = e.kvno;
      enctype = e.enctype;
      key = e.key.items;
    } };
}

impl<A: Allocator> NewEntry<A> {
    /// Returns its fields.
    pub fn fields(&self) -> Fields<'_, Principal<A>>
        ensures { result ≡ self.now }
    {
        Fields {
            principal: &self.principal,
            timestamp: self.timestamp,
            kvno: self.kvno,
            enctype: self.enctype,
            key: &self.key,
        }
    }
}

impl<'a> EntryView<'a> {
    /// Returns a copy that owns its memory.
    pub fn copy<A: Allocator + Copy>(&self, alloc: A) -> Result<NewEntry<A>, NoMemory>
        ensures { IfOk result (λ e. e ≡ self.now) }
    {
        let principal = copy_name(alloc, self.principal())?;
        let key = Vec::from_slice(alloc, self.key())?;
        Ok(NewEntry {
            principal,
            timestamp: self.timestamp(),
            kvno: self.kvno(),
            enctype: self.enctype(),
            key,
        })
    }
}
