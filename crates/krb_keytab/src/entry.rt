//! Entries of a keytab, read in place.

ghost use Rattle.std.specs.Prelude.{◌≡◌, IfSome, IsTrue, Some};
ghost use Rattle.std.specs.Int.{w32};
ghost use Rattle.krb_wire.specs.declared.format.KtFormat.TheVariants.{V2};
ghost use Rattle.krb_wire.specs.Reading.{Gives, number_at};
ghost use Rattle.krb_keytab.specs.Entry.{EntryParts, entry_at, Spells, version_by};
ghost use Rattle.krb_keytab.specs.Form.{fits};

use crate::fields::Fields;
use krb_wire::{
    KtFormat, Order, PrincipalView, split_data16, split_kt_principal, split_u8, split_u16,
    split_u32,
};
use std::marker::Model;

/// An entry that borrows from an image.
#[derive(Drop)]
pub struct EntryView<'a> {
    principal: PrincipalView<'a>,
    timestamp: u32,
    version: u32,
    enctype: u16,
    key: &'a [u8],
}

impl<'a> Model for EntryView<'a> {
    ghost use Rattle.std.specs.Prelude.{◌&&◌, IsTrue};
    ghost use Rattle.krb_wire.specs.declared.format.KtFormat.TheVariants.{V2};
    ghost use Rattle.krb_wire.specs.Spelling.{name_fits, is_short};
    ghost use Rattle.krb_keytab.specs.Entry.{EntryParts};

    ghost Value = { EntryParts };

    ghost view = { λ v. record {
      principal = v.principal;
      timestamp = v.timestamp;
      version = v.version;
      enctype = v.enctype;
      key = v.key.now;
    } };

    ghost invariant = { λ v. IsTrue (name_fits V2 v.principal && is_short v.key.now) };
}

impl<'a> EntryView<'a> {
    /// Returns the principal.
    pub fn principal(&self) -> &PrincipalView<'a>
        ensures { result.now ≡ self.now.principal }
    {
        &self.principal
    }

    /// Returns when it was written, in seconds since 1970-01-01T00:00:00Z.
    pub fn timestamp(&self) -> u32
        ensures { result ≡ self.now.timestamp }
    {
        self.timestamp
    }

    /// Returns the key version: the 32-bit kvno if there is one that is not 0, else the 8-bit one.
    pub fn kvno(&self) -> u32
        ensures { result ≡ self.now.version }
    {
        self.version
    }

    /// Returns the number of the key's enctype.
    pub fn enctype(&self) -> u16
        ensures { result ≡ self.now.enctype }
    {
        self.enctype
    }

    /// Returns the bytes of the key.
    pub fn key(&self) -> &'a [u8]
        ensures { result.now ≡ self.now.key }
    {
        self.key
    }

    /// Returns its fields. What was read fits version 2.
    #[inline]
    pub fn fields(&self) -> Fields<'_, PrincipalView<'a>>
        ensures is { result ≡ self.now }
        ensures fits { IsTrue (fits V2 result) }
    {
        Fields {
            principal: &self.principal,
            timestamp: self.timestamp,
            kvno: self.version,
            enctype: self.enctype,
            key: self.key,
        }
    }
}

// Returns the key version, from the 8-bit kvno and the bytes after the key.
fn version_of(order: Order, low: u8, tail: &[u8]) -> u32
    ensures { result ≡ version_by low (number_at order w32 tail.now) }
{
    let Some((version, _)) = split_u32(order, tail) else {
        return low as u32;
    };
    if version == 0 {
        return low as u32;
    }
    version
}

/// Returns the entry that the bytes begin with, or `None`.
#[inline(always)]
#[tactic(auto, unfolding(crate::specs::Entry::front_at, crate::specs::Entry::entry_at))]
pub fn entry_from(format: KtFormat, bytes: &[u8]) -> Option<EntryView<'_>>
    ensures { Gives (λ v. v) result (entry_at format bytes.now) }
{
    let order = format.order();
    let (principal, rest) = split_kt_principal(format, bytes)?;
    let (timestamp, rest) = split_u32(order, rest)?;
    let (low, rest) = split_u8(rest)?;
    let (enctype, rest) = split_u16(order, rest)?;
    let (key, rest) = split_data16(order, rest)?;
    let version = version_of(order, low, rest);
    Some(EntryView {
        principal,
        timestamp,
        version,
        enctype,
        key,
    })
}

/// Returns the entry that a record's bytes spell, or `None`. The bytes are the fields up to the key, an optional 32-bit
/// kvno, and then anything.
#[inline(always)]
#[tactic(auto, using(crate::proofs::EntryLemmas::found_entry, crate::proofs::EntryLemmas::only_entry))]
pub fn read_entry(format: KtFormat, bytes: &[u8]) -> Option<EntryView<'_>>
    // The bytes spell the entry that is returned.
    ensures found { IfSome result (λ v. Spells format v bytes.now) }
    // An entry that the bytes spell is returned, and no other.
    ensures only { (e : EntryParts) → Spells format e bytes.now → Gives (λ v. v) result (Some e) }
    ensures exact { Gives (λ v. v) result (entry_at format bytes.now) }
{
    entry_from(format, bytes)
}
