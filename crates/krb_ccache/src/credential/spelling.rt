//! Writing credentials in version 4.

ghost use Rattle.std.specs.Prelude.{◌≡◌, ◌≤◌, ◌<◌, ◌^◌, ◌+◌, length, IfSome, IfNone, sum};
ghost use Rattle.std.specs.List.{flat_map, AllByRecursion};
ghost use Rattle.krb_wire.specs.Text.{HasRoom, Puts};
ghost use Rattle.krb_wire.specs.Spelling.{IsLong};
ghost use Rattle.krb_ccache.specs.declared.version.Version.TheVariants.{V4};
ghost use Rattle.krb_ccache.specs.Credential.{typed_data, typed_list, times, credential, FitsTypedData, FitsTypedList, FitsKey, FitsTimes, FitsCredential, owned_list, middle_text, lists_text};

use crate::credential::Cred;
use crate::credential::times::Times;
use krb_wire::{Order, Pen, cc_principal_len};
use std::alloc::Allocator;

// The length of a credential without its names, the bytes of its key and tickets, and the items of its lists.
const FIXED_LEN: usize = 43;

// Returns how many of `room` bytes are left after the items, or `None` if the items do not fit.
fn room_after<A: Allocator>(room: usize, items: &[(u16, Vec<u8, A>)]) -> Option<usize>
    requires { room ≤ 2 ^ 30 }
    ensures some { IfSome result (λ n. n + length (flat_map typed_data (owned_list items.now)) ≡ room) }
    ensures fits { IfSome result (λ n. AllByRecursion FitsTypedData (owned_list items.now)) }
    ensures none { IfNone result (room < length (flat_map typed_data (owned_list items.now))) }
{
    let mut room = room;
    for (kind, bytes) in items {
        let _kind = *kind;
        room = room.checked_sub(6 + bytes.len())?;
    }
    Some(room)
}

// Writes the four times.
fn put_times(all: Times, pen: &mut Pen<'_>)
    requires { HasRoom pen.old (times all) }
    ensures { Puts pen.old pen.new (times all) }
{
    pen.put_u32(Order::Big, all.authtime);
    pen.put_u32(Order::Big, all.starttime);
    pen.put_u32(Order::Big, all.endtime);
    pen.put_u32(Order::Big, all.renew_till);
}

// Writes an item.
fn put_item(kind: u16, bytes: &[u8], pen: &mut Pen<'_>)
    requires long { IsLong bytes.now }
    requires room { HasRoom pen.old (typed_data (record { kind = kind; bytes = bytes.now })) }
    ensures { Puts pen.old pen.new (typed_data (record { kind = kind; bytes = bytes.now })) }
{
    pen.put_u16(Order::Big, kind);
    pen.put_data32(Order::Big, bytes);
}

// Writes items.
fn put_items<A: Allocator>(items: &[(u16, Vec<u8, A>)], pen: &mut Pen<'_>)
    requires fits { AllByRecursion FitsTypedData (owned_list items.now) }
    requires room { HasRoom pen.old (flat_map typed_data (owned_list items.now)) }
    ensures { Puts pen.old pen.new (flat_map typed_data (owned_list items.now)) }
{
    for (kind, bytes) in items {
        put_item(*kind, bytes, pen);
    }
}

// Writes the number of items, and the items.
fn put_list<A: Allocator>(items: &[(u16, Vec<u8, A>)], pen: &mut Pen<'_>)
    requires fits { FitsTypedList (owned_list items.now) }
    requires room { HasRoom pen.old (typed_list (owned_list items.now)) }
    ensures { Puts pen.old pen.new (typed_list (owned_list items.now)) }
{
    pen.put_u32(Order::Big, items.len() as u32);
    put_items(items, pen);
}

impl<A: Allocator> Cred<A> {
    // Shows that each number is in the range of its type.
    fn numbers_fit(&self)
        ensures client { self.now.client.name_type < 2 ^ 32 }
        ensures server { self.now.server.name_type < 2 ^ 32 }
        ensures enctype { self.now.key.enctype < 2 ^ 16 }
        ensures is_skey { self.now.is_skey < 256 }
        ensures flags { self.now.flags < 2 ^ 32 }
        ensures times { FitsTimes self.now.times }
    {
        let _client = self.client.name_type;
        let _server = self.server.name_type;
        let _enctype = self.enctype;
        let _is_skey = self.is_skey;
        let _flags = self.flags;
        let _times = self.times();
    }

    // Returns its length in version 4, or `None` if that is more than `most`.
    pub(crate) fn len_within(&self, most: usize) -> Option<usize>
        requires { most ≤ 2 ^ 30 }
        ensures some { IfSome result (λ n. n ≡ length (credential V4 self.now)) }
        ensures within { IfSome result (λ n. n ≤ most) }
        ensures fits { IfSome result (λ n. FitsCredential V4 self.now) }
        ensures none { IfNone result (most < length (credential V4 self.now)) }
    {
        self.numbers_fit();
        let client = cc_principal_len(&self.client)?;
        let server = cc_principal_len(&self.server)?;
        let lens = [
            FIXED_LEN,
            client as usize,
            server as usize,
            self.key.len(),
            self.ticket.len(),
            self.second_ticket.len(),
        ];
        let len = sum_within(&lens, most)?;
        let room = room_after(most - len, &self.addresses)?;
        let room = room_after(room, &self.authdata)?;
        Some(most - room)
    }

    // Writes the fields between its names and its lists.
    fn put_middle(&self, pen: &mut Pen<'_>)
        requires fits { FitsKey V4 self.now.key }
        requires room { HasRoom pen.old (middle_text self.now) }
        ensures { Puts pen.old pen.new (middle_text self.now) }
    {
        put_item(self.enctype, &self.key, pen);
        put_times(self.times(), pen);
        pen.put_u8(self.is_skey);
        pen.put_u32(Order::Big, self.flags);
    }

    // Writes its lists and tickets.
    fn put_lists(&self, pen: &mut Pen<'_>)
        requires fits { FitsCredential V4 self.now }
        requires room { HasRoom pen.old (lists_text self.now) }
        ensures { Puts pen.old pen.new (lists_text self.now) }
    {
        put_list(&self.addresses, pen);
        put_list(&self.authdata, pen);
        pen.put_data32(Order::Big, &self.ticket);
        pen.put_data32(Order::Big, &self.second_ticket);
    }

    // Writes the credential.
    pub(crate) fn put(&self, pen: &mut Pen<'_>)
        requires fits { FitsCredential V4 self.now }
        requires room { HasRoom pen.old (credential V4 self.now) }
        ensures { Puts pen.old pen.new (credential V4 self.now) }
    {
        pen.put_cc_principal(&self.client);
        pen.put_cc_principal(&self.server);
        self.put_middle(pen);
        self.put_lists(pen);
    }
}

/// Returns the sum of the lengths, or `None` if it is more than `most`.
pub fn sum_within(lens: &[usize], most: usize) -> Option<usize>
    ensures some { IfSome result (λ n. n ≡ sum lens.now) }
    ensures within { IfSome result (λ n. n ≤ most) }
    ensures none { IfNone result (most < sum lens.now) }
{
    let mut room = most;
    for len in lens {
        room = room.checked_sub(*len)?;
    }
    Some(most - room)
}
