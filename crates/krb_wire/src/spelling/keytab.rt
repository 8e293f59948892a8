//! Names as a keytab encodes them.

ghost use Rattle.std.specs.Prelude.{◌≡◌, ◌≤◌, ◌<◌, ◌^◌, ◌+◌, ℕ, length, is_some, IsTrue, IfSome};
ghost use Rattle.std.specs.List.{splice};
ghost use Rattle.krb_wire.specs.Text.{HasRoom, Puts};
ghost use Rattle.krb_wire.specs.Spelling.{name_fits, kt_principal, name_type_field};

use crate::format::{KtFormat, Lengths, Order};
use crate::name::Name;
use crate::pen::Pen;

// Returns how many bytes a name type takes.
fn name_type_len(format: KtFormat) -> u64
    ensures len { (name_type : ℕ) → result ≡ length (name_type_field format name_type) }
    ensures small { result ≤ 4 }
{
    if format.has_name_type() { 4 } else { 0 }
}

/// Returns how many bytes the name takes in a keytab (MIT krb5, "Keytab file format", section "Key entry format"), or
/// `None` if a count or a length does not fit its 16 bits: more than 65,535 components (65,534 in version 1), or a
/// realm or a component of more than 65,535 bytes. Version 1 leaves the name type out.
pub fn kt_principal_len<N: Name>(format: KtFormat, name: &N) -> Option<u64>
    ensures some { is_some result ≡ name_fits format (N.parts name.now) }
    ensures len { IfSome result (λ n. n ≡ length (kt_principal format (N.parts name.now))) }
    // So the sum fits a u64, with room to add more.
    ensures small { IfSome result (λ n. n < 2 ^ 33) }
{
    let _ = format.count_of(name.count())?;
    let realm = name.realm().len();
    if realm > 65_535 {
        return None;
    }
    let mut len = 4 + realm as u64 + name_type_len(format);
    for component in name.components() {
        if component.len() > 65_535 {
            return None;
        }
        len += 2 + component.len() as u64;
    }
    Some(len)
}

impl Pen<'_> {
    // Writes a name type, if the format has one.
    fn put_name_type(&mut self, format: KtFormat, name_type: u32)
        requires { HasRoom self.old (name_type_field format name_type) }
        ensures { Puts self.old self.new (name_type_field format name_type) }
    {
        if format.has_name_type() {
            self.put_u32(Order::Big, name_type);
        }
    }

    /// Writes the name as a keytab encodes it. `kt_principal_len` returns how much room that takes, or `None` if it
    /// cannot be written.
    pub fn put_kt_principal<N: Name>(&mut self, format: KtFormat, name: &N)
        requires spelled { IsTrue (name_fits format (N.parts name.now)) }
        requires room { HasRoom self.old (kt_principal format (N.parts name.now)) }
        ensures { Puts self.old self.new (kt_principal format (N.parts name.now)) }
    {
        let order = format.order();
        let Some(count) = format.count_of(name.count()) else {
            unreachable!()
        };
        self.put_u16(order, count);
        self.put_data16(order, name.realm());
        self.put_components(Lengths::Bits16(order), name);
        self.put_name_type(format, name.name_type());
    }
}

/// Writes the name at `at` as a keytab encodes it, and no other byte. Returns the place after it. `kt_principal_len`
/// returns how much room that takes, or `None` if it cannot be written.
pub fn put_kt_principal<N: Name>(format: KtFormat, name: &N, out: &mut [u8], at: usize) -> usize
    requires spelled { IsTrue (name_fits format (N.parts name.now)) }
    requires room { at + length (kt_principal format (N.parts name.now)) ≤ length out.old }
    ensures next { result ≡ at + length (kt_principal format (N.parts name.now)) }
    ensures written { out.new ≡ splice out.old at result (kt_principal format (N.parts name.now)) }
{
    let mut pen = Pen::new(out, at);
    pen.put_kt_principal(format, name);
    pen.place()
}
