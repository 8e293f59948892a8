//! Overwriting bytes in place, one part after the other.

ghost use Rattle.std.specs.Prelude.{◌≡◌, ◌∷◌, [], replicate};
ghost use Rattle.std.specs.Int.{w16, w32};
ghost use Rattle.krb_wire.specs.Spelling.{digits, data16, data32, data_text, FitsLength, IsShort, IsLong};

use crate::format::{Lengths, Order};
use crate::numbers::{bytes_of_u16, bytes_of_u32};

/// A writer over existing bytes, and the place where it writes next.
#[derive(Drop)]
pub struct Pen<'a> {
    out: &'a mut [u8],
    at: usize,
}

impl<'a> Pen<'a> {
    ghost use Rattle.krb_wire.specs.Text.{IsAt, HasRoom, Puts};

    /// Returns a pen that overwrites `out` from `at` on.
    #[inline]
    pub fn new(out: &'a mut [u8], at: usize) -> Pen<'a>
        ensures { IsAt out.entry at result }
    {
        Pen { out, at }
    }

    /// Returns the place where the next bytes are written.
    #[inline]
    pub fn place(&self) -> usize
        ensures { result ≡ self.now.at }
    {
        self.at
    }

    /// Writes a byte.
    #[inline]
    pub fn put_u8(&mut self, n: u8)
        requires { HasRoom self.old (n ∷ []) }
        ensures { Puts self.old self.new (n ∷ []) }
    {
        self.out[self.at] = n;
        self.at += 1;
    }

    /// Writes a number in two bytes.
    #[inline]
    pub fn put_u16(&mut self, order: Order, n: u16)
        requires { HasRoom self.old (digits order w16 n) }
        ensures { Puts self.old self.new (digits order w16 n) }
    {
        self.put_bytes(&bytes_of_u16(order, n));
    }

    /// Writes a number in four bytes.
    #[inline]
    pub fn put_u32(&mut self, order: Order, n: u32)
        requires { HasRoom self.old (digits order w32 n) }
        ensures { Puts self.old self.new (digits order w32 n) }
    {
        self.put_bytes(&bytes_of_u32(order, n));
    }

    /// Writes bytes as they are.
    #[inline]
    pub fn put_bytes(&mut self, bytes: &[u8])
        requires { HasRoom self.old bytes.now }
        ensures { Puts self.old self.new bytes.now }
    {
        let end = self.at + bytes.len();
        self.out[self.at..end].copy_from_slice(bytes);
        self.at = end;
    }

    /// Writes `count` zeros.
    #[inline]
    pub fn put_zeros(&mut self, count: usize)
        requires { HasRoom self.old (replicate count 0) }
        ensures { Puts self.old self.new (replicate count 0) }
    {
        let end = self.at + count;
        self.out[self.at..end].fill(0);
        self.at = end;
    }

    /// Writes counted data, its length of 16 bits first.
    #[inline]
    #[tactic(auto, using(crate::proofs::PenLemmas::puts_then))]
    pub fn put_data16(&mut self, order: Order, text: &[u8])
        requires short { IsShort text.now }
        requires room { HasRoom self.old (data16 order text.now) }
        ensures { Puts self.old self.new (data16 order text.now) }
    {
        self.put_u16(order, text.len() as u16);
        self.put_bytes(text);
    }

    /// Writes counted data, its length of 32 bits first.
    #[inline]
    #[tactic(auto, using(crate::proofs::PenLemmas::puts_then))]
    pub fn put_data32(&mut self, order: Order, text: &[u8])
        requires long { IsLong text.now }
        requires room { HasRoom self.old (data32 order text.now) }
        ensures { Puts self.old self.new (data32 order text.now) }
    {
        self.put_u32(order, text.len() as u32);
        self.put_bytes(text);
    }

    /// Writes counted data, its length first.
    #[inline(always)]
    pub fn put_data(&mut self, lengths: Lengths, text: &[u8])
        requires fits { FitsLength lengths text.now }
        requires room { HasRoom self.old (data_text lengths text.now) }
        ensures { Puts self.old self.new (data_text lengths text.now) }
    {
        match lengths {
            Lengths::Bits16(order) => self.put_data16(order, text),
            Lengths::Bits32(order) => self.put_data32(order, text),
        }
    }
}
