//! The status codes that calls return.

ghost use Rattle.std.specs.Prelude.{◌≡◌, ◌<◌};
ghost use Rattle.krb_c.specs.Status.{kt_open_status, cc_open_status, name_status, code_status, refusal_status, kind_number};

use krb_ccache::CcOpenFault;
use krb_keytab::KtOpenFault;
use krb_walk::{Code, Fault, Refusal};
use krb_wire::NameFault;

/// Success.
pub const DONE: u32 = 0;

/// Out of memory.
pub const NO_MEMORY: u32 = 1;

/// A walk is at its end.
pub const AT_END: u32 = 2;

/// An image is longer than the limit, or the limit is not valid.
pub const TOO_LARGE: u32 = 13;

/// A key has another length than those of its enctype.
pub const BAD_KEY: u32 = 42;

/// No entry that fits a ticket in version has its enctype.
pub const ENCTYPE_NOT_FOUND: u32 = 43;

/// Returns the status for an image that is not a keytab.
pub fn of_kt_open(why: KtOpenFault) -> u32
    ensures is { result ≡ kt_open_status why }
    ensures failed { 0 < result }
{
    10 + why.number()
}

/// Returns the status for an image that is not a cache.
pub fn of_cc_open(why: CcOpenFault) -> u32
    ensures is { result ≡ cc_open_status why }
    ensures failed { 0 < result }
{
    10 + why.number()
}

/// Returns the status for a text that is not a name, or `NO_MEMORY`.
pub fn of_name(fault: NameFault) -> u32
    ensures is { result ≡ name_status fault }
    ensures failed { 0 < result }
{
    match fault {
        NameFault::NoRealm => 21,
        NameFault::LoneBackslash => 22,
        NameFault::SecondAt => 23,
        NameFault::SlashInRealm => 24,
        NameFault::NoMemory => NO_MEMORY,
    }
}

/// Returns the status for the code of a refusal.
pub fn of_code(code: Code) -> u32
    ensures is { result ≡ code_status code }
    ensures failed { 0 < result }
{
    30 + code.number()
}

/// Returns the status for a refusal or a failed allocation.
pub fn of_refusal(refusal: Refusal) -> u32
    ensures is { result ≡ refusal_status refusal }
    ensures failed { 0 < result }
{
    match refusal {
        Refusal::Code(code) => of_code(code),
        Refusal::NoMemory => NO_MEMORY,
    }
}

/// Returns the number of the fault after the last sound cell: 0 if there is none.
pub fn kind_of(fault: Option<Fault>) -> u32
    ensures { result ≡ kind_number fault }
{
    match fault {
        Some(fault) => fault.kind.number(),
        None => 0,
    }
}
