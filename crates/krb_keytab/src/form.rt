//! The written form of an entry.

ghost use Rattle.std.specs.Prelude.{◌≡◌, ◌<◌, ◌^◌, length, is_some, IsTrue, IfSome};
ghost use Rattle.krb_wire.specs.Text.{HasRoom, Puts};
ghost use Rattle.krb_wire.specs.declared.format.KtFormat.TheVariants.{V2};
ghost use Rattle.krb_keytab.specs.Form.{fits, written_form, FormParts, IsRecord};

use crate::entry::EntryView;
use crate::fields::Fields;
use krb_wire::{KtFormat, Name, Pen, PrincipalView, kt_principal_len};
use std::marker::Model;

/// The written form of an entry, with its length. Contracts see its bytes and their format.
#[derive(Drop)]
pub struct Form<'a, N: Name> {
    format: KtFormat,
    entry: Fields<'a, N>,
    len: usize,
}

impl<'a, N: Name> Model for Form<'a, N> {
    ghost use Rattle.std.specs.Prelude.{◌≡◌, ◌<◌, ◌^◌, length, IsTrue};
    ghost use Rattle.krb_keytab.specs.Form.{fits, written_form, FormParts, IsEntry};

    ghost Value = { FormParts };

    ghost view = { λ w. record { format = w.format; bytes = written_form w.format w.entry } };

    ghost invariant = { λ w. IsTrue (fits w.format w.entry) × IsEntry w.entry
        × (w.len ≡ length (written_form w.format w.entry)) × (w.len < 2 ^ 34) };
}

// Returns the length of an entry's written form, or `None` if a length or a count does not fit its field.
#[tactic(auto, using(std::proofs::lemmas::Bool::Decides::nat_tests, crate::proofs::WrittenLemmas::fits_no))]
fn entry_len<N: Name>(format: KtFormat, entry: &Fields<'_, N>) -> Option<u64>
    ensures fits { is_some result ≡ fits format entry.now }
    ensures len { IfSome result (λ n. n ≡ length (written_form format entry.now)) }
    ensures small { IfSome result (λ n. n < 2 ^ 34) }
{
    let principal = kt_principal_len(format, entry.principal)?;
    let key = entry.key.len();
    if key > 65_535 {
        return None;
    }
    Some(principal + 13 + key as u64)
}

// Writes an entry.
fn put_entry<N: Name>(format: KtFormat, entry: &Fields<'_, N>, pen: &mut Pen<'_>)
    requires fits { IsTrue (fits format entry.now) }
    requires room { HasRoom pen.old (written_form format entry.now) }
    ensures { Puts pen.old pen.new (written_form format entry.now) }
{
    let order = format.order();
    pen.put_kt_principal(format, entry.principal);
    pen.put_u32(order, entry.timestamp);
    pen.put_u8((entry.kvno % 256) as u8);
    pen.put_u16(order, entry.enctype);
    pen.put_data16(order, entry.key);
    pen.put_u32(order, entry.kvno);
}

impl<'a, N: Name> Form<'a, N> {
    /// Returns the written form of an entry, or `None` if a length or a count does not fit its field.
    pub fn of(format: KtFormat, entry: Fields<'a, N>) -> Option<Form<'a, N>>
        ensures fits { is_some result ≡ fits format entry.entry }
        ensures bytes { IfSome result (λ w. w ≡ record {
          format = format;
          bytes = written_form format entry.entry;
        }) }
    {
        let len = entry_len(format, &entry)? as usize;
        entry.numbers_fit();
        Some(Form { format, entry, len })
    }

    /// Returns the format that it is written in.
    pub fn format(&self) -> KtFormat
        ensures { result ≡ self.now.format }
    {
        self.format
    }

    /// Returns how many bytes it has. They begin with an entry, however many zeros follow them.
    #[tactic(auto, using(crate::proofs::WrittenLemmas::written_is_record))]
    pub fn len(&self) -> usize
        ensures len { result ≡ length self.now.bytes }
        ensures some { 0 < result }
        ensures small { result < 2 ^ 34 }
        ensures record { IsRecord self.now.format self.now.bytes }
    {
        self.len
    }

    /// Writes its bytes.
    pub fn put(&self, pen: &mut Pen<'_>)
        requires { HasRoom pen.old self.now.bytes }
        ensures { Puts pen.old pen.new self.now.bytes }
    {
        put_entry(self.format, &self.entry, pen);
    }
}

impl<'a> Form<'a, PrincipalView<'a>> {
    /// Returns the written form in version 2 of an entry that was read. Each such entry fits.
    pub fn in_version_2(entry: &'a EntryView<'a>) -> Form<'a, PrincipalView<'a>>
        ensures { result ≡ record { format = V2; bytes = written_form V2 entry.now } }
    {
        let entry = entry.fields();
        entry.numbers_fit();
        let len = entry_len(KtFormat::V2, &entry).unwrap_or(0) as usize;
        Form {
            format: KtFormat::V2,
            entry,
            len,
        }
    }
}
