//! Numbers of 8, 16 and 32 bits, in either byte order.

ghost use Rattle.std.specs.Prelude.{◌≡◌, ◌≤◌, length};
ghost use Rattle.std.specs.Int.{w16, w32};
ghost use Rattle.krb_wire.specs.Spelling.{digits, number};
ghost use Rattle.krb_wire.specs.Reading.{Gives, number_at, byte_at};

use crate::format::Order;
use byteorder::{BigEndian, ByteOrder, LittleEndian};

/// Returns the number in the first two bytes.
pub fn read_u16(order: Order, bytes: &[u8]) -> u16
    requires { 2 ≤ length bytes.now }
    ensures { result ≡ number order w16 bytes.now }
{
    match order {
        Order::Big => BigEndian::read_u16(bytes),
        Order::Little => LittleEndian::read_u16(bytes),
    }
}

/// Returns the number in the first four bytes.
pub fn read_u32(order: Order, bytes: &[u8]) -> u32
    requires { 4 ≤ length bytes.now }
    ensures { result ≡ number order w32 bytes.now }
{
    match order {
        Order::Big => BigEndian::read_u32(bytes),
        Order::Little => LittleEndian::read_u32(bytes),
    }
}

/// Splits off the first byte.
pub fn split_u8(bytes: &[u8]) -> Option<(u8, &[u8])>
    ensures { Gives (λ x. (x.0, x.1.now)) result (byte_at bytes.now) }
{
    let (first, rest) = bytes.split_first()?;
    Some((*first, rest))
}

/// Splits off the number in the first two bytes.
pub fn split_u16(order: Order, bytes: &[u8]) -> Option<(u16, &[u8])>
    ensures { Gives (λ x. (x.0, x.1.now)) result (number_at order w16 bytes.now) }
{
    if bytes.len() < 2 {
        return None;
    }
    let (front, rest) = bytes.split_at(2);
    Some((read_u16(order, front), rest))
}

/// Splits off the number in the first four bytes.
pub fn split_u32(order: Order, bytes: &[u8]) -> Option<(u32, &[u8])>
    ensures { Gives (λ x. (x.0, x.1.now)) result (number_at order w32 bytes.now) }
{
    if bytes.len() < 4 {
        return None;
    }
    let (front, rest) = bytes.split_at(4);
    Some((read_u32(order, front), rest))
}

/// Returns the two bytes of a number.
#[inline]
pub fn bytes_of_u16(order: Order, n: u16) -> [u8; 2]
    ensures { result ≡ digits order w16 n }
{
    let mut bytes = [0; 2];
    match order {
        Order::Big => BigEndian::write_u16(&mut bytes, n),
        Order::Little => LittleEndian::write_u16(&mut bytes, n),
    }
    bytes
}

/// Returns the four bytes of a number.
#[inline]
pub fn bytes_of_u32(order: Order, n: u32) -> [u8; 4]
    ensures { result ≡ digits order w32 n }
{
    let mut bytes = [0; 4];
    match order {
        Order::Big => BigEndian::write_u32(&mut bytes, n),
        Order::Little => LittleEndian::write_u32(&mut bytes, n),
    }
    bytes
}
