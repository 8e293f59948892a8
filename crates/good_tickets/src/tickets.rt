//! Tickets that are good at a time.

ghost use Rattle.std.specs.Prelude.{◌≡◌, IfOk};
ghost use Rattle.krb_ccache.specs.Store.{placed_credentials};
ghost use Rattle.good_tickets.specs.Tickets.{is_good, good_tickets};

use krb_ccache::{Ccache, CredView, is_config};
use krb_wire::{NoMemory, write_name};
use std::alloc::Allocator;

// Whether a credential is a ticket that is good at a time.
fn is_good(now: u32, credential: &CredView<'_>) -> bool
    ensures { result ≡ is_good now credential.now }
{
    let start = match credential.starttime() {
        0 => credential.authtime(),
        time => time,
    };
    start <= now && now < credential.endtime() && !is_config(credential)
}

/// The names of the services whose tickets are good at a time, each on a line, in file order.
pub fn good_tickets<A: Allocator, B: Allocator>(
    alloc: A,
    cache: &Ccache<B>,
    now: u32,
) -> Result<Vec<u8, A>, NoMemory>
    ensures { IfOk result (λ lines. lines.items ≡ good_tickets now (placed_credentials cache.now.state)) }
{
    let mut lines = Vec::new(alloc);
    'credentials: for (_, credential) in cache.credentials() {
        if is_good(now, &credential) {
            write_name(credential.server(), &mut lines)?;
            lines.push(b'\n')?;
        }
    }
    Ok(lines)
}
