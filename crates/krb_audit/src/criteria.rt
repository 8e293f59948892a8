//! The criteria by which entries and tickets are selected, but for the kvno.

ghost use Rattle.std.specs.Prelude.{◌≡◌, ◌&&◌, not, IfOk};
ghost use Rattle.krb_audit.specs.Selection.{has_selected_enctype, is_named};
ghost use Rattle.krb_audit.specs.Tickets.{has_ended_by, has_selected_server, is_of_gssproxy, is_service, names_ticket};

use crate::selection::Selection;
use krb_ccache::{CredView, is_config, ticket_server};
use krb_keytab::EntryView;
use krb_names::NameFilter;
use krb_wire::{Name, NoMemory, PrincipalView};
use std::alloc::Allocator;

fn has_selected_enctype(selected: &[u16], enctype: u16) -> bool
    ensures { result ≡ has_selected_enctype selected.now enctype }
{
    selected.is_empty() || selected.contains(&enctype)
}

/// Returns whether an entry has a selected name, enctype and, if one is given, kvno. Skips the work, with `false`, if
/// neither the selection nor a message depends on it: the entry is not selected anyway, and some entry is known to be
/// named. Asks the filter of the selected names.
pub fn is_named_if_it_matters<A: Allocator, B: Allocator, C: Allocator>(
    is_any_named: bool,
    may_be_selected: bool,
    selection: &Selection<B>,
    names: &mut NameFilter<'_, A, C>,
    entry: &EntryView<'_>,
) -> Result<bool, NoMemory>
    ensures named { names.old ≡ selection.now.names
        → IfOk result (λ b. b ≡ (not (is_any_named && not may_be_selected) && is_named selection.now entry.now)) }
    ensures kept { names.new ≡ names.old }
{
    if is_any_named && !may_be_selected {
        return Ok(false);
    }
    if !has_selected_enctype(&selection.enctypes, entry.enctype())
        || !selection.kvno.may_be(entry.kvno())
    {
        return Ok(false);
    }
    names.passes(entry.principal())
}

/// Returns whether a name's first component is not `krbtgt`. True if it has none.
pub fn is_service<N: Name>(name: &N) -> bool
    ensures { result ≡ is_service (N.parts name.now) }
{
    name.component(0)
        .is_none_or(|first| first != b"krbtgt".as_slice())
}

/// Returns whether a server has the realm under which gssproxy keeps a user's credentials.
pub fn is_of_gssproxy(server: &PrincipalView<'_>) -> bool
    ensures { result ≡ is_of_gssproxy server.now }
{
    server.realm() == b"X-GSSPROXY:".as_slice()
}

// Returns whether a ticket's server, or the one that it names itself, is asked for, or its server is any but gssproxy's
// if none is.
fn has_selected_server<A: Allocator + Copy, B: Allocator>(
    alloc: A,
    servers: &mut NameFilter<'_, A, B>,
    ticket: &CredView<'_>,
) -> Result<bool, NoMemory>
    ensures selected { IfOk result (λ b. b ≡ has_selected_server servers.old ticket.now) }
    ensures kept { servers.new ≡ servers.old }
{
    let is_of_gssproxy = is_of_gssproxy(ticket.server());
    if servers.is_any() {
        return Ok(!is_of_gssproxy);
    }
    if servers.asks_for(ticket.server(), is_of_gssproxy)? {
        return Ok(true);
    }
    match ticket_server(ticket.ticket()) {
        Some(server) => servers.asks_for(&server.copy(alloc)?, is_of_gssproxy),
        None => Ok(false),
    }
}

/// Returns whether a credential is a ticket of a server that is asked for, and with `all_services` one of a service.
pub fn names_ticket<A: Allocator + Copy, B: Allocator>(
    alloc: A,
    servers: &mut NameFilter<'_, A, B>,
    all_services: bool,
    credential: &CredView<'_>,
) -> Result<bool, NoMemory>
    ensures named { IfOk result (λ b. b ≡ names_ticket servers.old all_services credential.now) }
    ensures kept { servers.new ≡ servers.old }
{
    if is_config(credential) {
        return Ok(false);
    }
    if all_services && !is_service(credential.server()) {
        return Ok(false);
    }
    has_selected_server(alloc, servers, credential)
}

/// Returns whether a credential has ended at or before the given second, as one without an end never does. True if no
/// second is given.
pub fn has_ended_by(ended_by: Option<u32>, credential: &CredView<'_>) -> bool
    ensures { result ≡ has_ended_by ended_by credential.now }
{
    match ended_by {
        Some(now) => credential.endtime() != 0 && credential.endtime() <= now,
        None => true,
    }
}
