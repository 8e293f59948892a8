//! The listing of a credential cache.

ghost use Rattle.std.specs.Prelude.{◌≡◌, ◌++◌, OnOk, IsFalse};
ghost use Rattle.krb_ccache.specs.Store.{placed_credentials};
ghost use Rattle.krb_text.specs.Gathered.{Gathers, Prints};
ghost use Rattle.krb_cache_text.specs.Listing.{cache_heading, lines_of_credentials, cache_text};

use crate::columns::CcColumns;
use crate::credential::{LastTimes, append_credential};
use krb_ccache::Ccache;
use krb_files::{OutFault, Watched};
use krb_text::{append, room_to_gather, send_if_full, send_last};
use krb_wire::{Name, NoMemory, write_name};
use std::alloc::Allocator;
use std::io::Write;

fn append_heading<N: Name, A: Allocator>(
    name: &str,
    principal: &N,
    out: &mut Vec<u8, A>,
) -> Result<(), NoMemory>
    ensures { OnOk result
        (out.new.items ≡ out.old.items ++ cache_heading name.now (N.parts principal.now)) }
{
    append(b"Ticket cache: FILE:", out)?;
    append(name.as_bytes(), out)?;
    append(b"\nDefault principal: ", out)?;
    write_name(principal, out)?;
    append(
        b"\n\nValid starting       Expires              Service principal\n",
        out,
    )
}

// Prints the lines of all credentials, gathered into large writes.
fn list_credentials<A: Allocator, B: Allocator, W: Write>(
    cache: &Ccache<B>,
    columns: CcColumns,
    gathered: &mut Vec<u8, A>,
    out: &mut Watched<W>,
) -> Result<(), OutFault>
    requires { IsFalse out.old.failed }
    ensures { Gathers out.old out.new gathered.old.items gathered.new.items result
        (lines_of_credentials columns (placed_credentials cache.now.state)) }
{
    let mut last = LastTimes::new();
    'credentials: for (_, credential) in cache.credentials() {
        append_credential(columns, &mut last, &credential, gathered)?;
        send_if_full(gathered, out)?;
    }
    Ok(())
}

/// Prints the listing of a cache with this file name: the default principal, the lines of each credential in file
/// order, and the fault of a damaged image. Gathers the text into large writes; if one fails, what went out is a
/// prefix of the text.
pub fn list_cache<A: Allocator, B: Allocator, W: Write>(
    alloc: A,
    name: &str,
    cache: &Ccache<B>,
    columns: CcColumns,
    out: &mut Watched<W>,
) -> Result<(), OutFault>
    requires { IsFalse out.old.failed }
    ensures { Prints out.old out.new result (cache_text columns name.now cache.now.state) }
{
    let mut gathered = room_to_gather(alloc)?;
    append_heading(name, &cache.default_principal(), &mut gathered)?;
    list_credentials(cache, columns, &mut gathered, out)?;
    send_last(cache.fault(), &mut gathered, out)
}
