//! What a cache has in its header, and a ticket in its own bytes.

ghost use Rattle.std.specs.Prelude.{◌≡◌, IsSome};
ghost use Rattle.krb_ccache.specs.Header.{offset_in};
ghost use Rattle.krb_ccache.specs.Store.{credential_at_place};
ghost use Rattle.krb_c.specs.Held.{cache_of, Looks};
ghost use Rattle.krb_c.specs.Own.{CopiesOwnServer, ReportsOffset, ShowsEncryptionAt, ShowsNameTypes, seen_encryption};

use crate::cache::changes::KrbfNameTypes;
use crate::handle::{KrbfCcache, if_live, with_held};
use crate::heap::heap;
use crate::status::{DONE, NO_MEMORY, of_code};
use crate::text::copy_name;
use krb_ccache::{TicketEncryption, ticket_encryption, ticket_server};
use krb_walk::Code;
use krb_wire::Name;
use std::alloc::Global;

/// How a ticket is encrypted. `has_kvno` is 1 if it has a version, and else both are 0.
#[repr(C)]
#[derive(Drop)]
pub struct KrbfEncryption {
    pub enctype: i32,
    pub kvno: u32,
    pub has_kvno: u32,
}

fn seen(encryption: TicketEncryption) -> KrbfEncryption
    ensures { result ≡ seen_encryption encryption }
{
    KrbfEncryption {
        enctype: encryption.etype,
        kvno: encryption.kvno.unwrap_or(0),
        has_kvno: u32::from(encryption.kvno.is_some()),
    }
}

#[unsafe(no_mangle)]
pub extern "C" fn krbf_cc_offset(
    alloc: Global,
    cc: &mut KrbfCcache,
    seconds: &mut i32,
    micros: &mut i32,
) -> u32
    requires { IsSome (cache_of cc.old) }
    ensures reports { Looks (cache_of cc.old) (cache_of cc.new)
        (λ k. ReportsOffset (offset_in k.header) result seconds.old seconds.new micros.old micros.new) }
{
    with_held!(cc, alloc, held => match held.cache().store().offset() {
        Some(offset) => {
            *seconds = offset.seconds;
            *micros = offset.micros;
            DONE
        }
        None => of_code(Code::NotFound),
    })
}

#[unsafe(no_mangle)]
pub extern "C" fn krbf_cc_ticket_encryption(
    alloc: Global,
    cc: &mut KrbfCcache,
    place: u32,
    encryption: &mut KrbfEncryption,
) -> u32
    requires { IsSome (cache_of cc.old) }
    ensures shows { Looks (cache_of cc.old) (cache_of cc.new)
        (λ k. ShowsEncryptionAt (credential_at_place k place) result encryption.old encryption.new) }
{
    with_held!(cc, alloc, held => if_live!(held.cache().cred_at(place), credential => {
        match ticket_encryption(credential.ticket()) {
            Some(found) => {
                *encryption = seen(found);
                DONE
            }
            None => of_code(Code::NotFound),
        }
    }))
}

#[unsafe(no_mangle)]
pub extern "C" fn krbf_cc_ticket_server(
    alloc: Global,
    cc: &mut KrbfCcache,
    place: u32,
    room: &mut [u8],
    len: &mut usize,
) -> u32
    requires { IsSome (cache_of cc.old) }
    ensures copies { Looks (cache_of cc.old) (cache_of cc.new)
        (λ k. CopiesOwnServer (credential_at_place k place) result room.old room.new len.old len.new) }
{
    with_held!(cc, alloc, held => if_live!(held.cache().cred_at(place), credential => {
        match ticket_server(credential.ticket()) {
            Some(server) => match server.copy(heap(alloc)) {
                Ok(server) => copy_name(alloc, &server, room, len),
                Err(_) => NO_MEMORY,
            },
            None => of_code(Code::NotFound),
        }
    }))
}

#[unsafe(no_mangle)]
pub extern "C" fn krbf_cc_name_types(
    alloc: Global,
    cc: &mut KrbfCcache,
    place: u32,
    types: &mut KrbfNameTypes,
) -> u32
    requires { IsSome (cache_of cc.old) }
    ensures shows { Looks (cache_of cc.old) (cache_of cc.new)
        (λ k. ShowsNameTypes (credential_at_place k place) result types.old types.new) }
{
    with_held!(cc, alloc, held => if_live!(held.cache().cred_at(place), credential => {
        *types = KrbfNameTypes {
            client: credential.client().name_type(),
            server: credential.server().name_type(),
        };
        DONE
    }))
}
