//! Names as a credential cache encodes them.

ghost use Rattle.std.specs.Prelude.{◌≡◌, ◌≤◌, ◌^◌, ◌+◌, ◌&&◌, length, is_some, nat_lt, IsTrue, IfSome, IfNone};
ghost use Rattle.std.specs.List.{splice};
ghost use Rattle.krb_wire.specs.Text.{HasRoom, Puts};
ghost use Rattle.krb_wire.specs.Spelling.{cc_name_fits, cc_principal};

use crate::format::{Lengths, Order};
use crate::name::Name;
use crate::pen::Pen;

/// Returns how many bytes the name takes in a credential cache (MIT krb5, "Credential cache file format", section
/// "Principal"), or `None` if a count or a length does not fit its 32 bits, or the sum a u64.
pub fn cc_principal_len<N: Name>(name: &N) -> Option<u64>
    ensures some { is_some result ≡ (cc_name_fits (N.parts name.now)
        && nat_lt (length (cc_principal (N.parts name.now))) (2 ^ 64)) }
    ensures len { IfSome result (λ n. n ≡ length (cc_principal (N.parts name.now))) }
    // With `None` it is too long for any cache.
    ensures none { IfNone result (2 ^ 32 ≤ length (cc_principal (N.parts name.now))) }
{
    if name.count() > u32::MAX as usize {
        return None;
    }
    let realm = name.realm().len();
    if realm > u32::MAX as usize {
        return None;
    }
    let mut len = 12 + realm as u64;
    for component in name.components() {
        if component.len() > u32::MAX as usize {
            return None;
        }
        len = len.checked_add(4 + component.len() as u64)?;
    }
    Some(len)
}

impl Pen<'_> {
    /// Writes the name as a credential cache encodes it. `cc_principal_len` returns how much room that takes, or `None`
    /// if it cannot be written.
    pub fn put_cc_principal<N: Name>(&mut self, name: &N)
        requires spelled { IsTrue (cc_name_fits (N.parts name.now)) }
        requires room { HasRoom self.old (cc_principal (N.parts name.now)) }
        ensures { Puts self.old self.new (cc_principal (N.parts name.now)) }
    {
        self.put_u32(Order::Big, name.name_type());
        self.put_u32(Order::Big, name.count() as u32);
        self.put_data32(Order::Big, name.realm());
        self.put_components(Lengths::Bits32(Order::Big), name);
    }
}

/// Writes the name at `at` as a credential cache encodes it, and no other byte. Returns the place after it.
/// `cc_principal_len` returns how much room that takes, or `None` if it cannot be written.
pub fn put_cc_principal<N: Name>(name: &N, out: &mut [u8], at: usize) -> usize
    requires spelled { IsTrue (cc_name_fits (N.parts name.now)) }
    requires room { at + length (cc_principal (N.parts name.now)) ≤ length out.old }
    ensures next { result ≡ at + length (cc_principal (N.parts name.now)) }
    ensures written { out.new ≡ splice out.old at result (cc_principal (N.parts name.now)) }
{
    let mut pen = Pen::new(out, at);
    pen.put_cc_principal(name);
    pen.place()
}
