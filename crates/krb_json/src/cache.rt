//! A credential cache as JSON.

ghost use Rattle.std.specs.Prelude.{◌≡◌, [], Some, OnOk, IsFalse, codes, false};
ghost use Rattle.std.specs.List.{cons_option};
ghost use Rattle.json.specs.Json.{document};
ghost use Rattle.krb_ccache.specs.Config.{config_name};
ghost use Rattle.krb_ccache.specs.Store.{version_byte, placed_credentials};
ghost use Rattle.krb_text.specs.Gathered.{Gathers, Prints};
ghost use Rattle.krb_json.specs.Escaped.{json_text};
ghost use Rattle.krb_json.specs.Cache.{cache_members, shown_by, shown_values, ticket_values, config_values, cache_value, cache_json_text};
ghost use Rattle.krb_json.specs.Pieces.{Adds, ArePlain, Begins, arrays_text, head_tokens};

use crate::elements::Elements;
use crate::put::Label;
use krb_ccache::{Ccache, CredView, Version, config_name};
use krb_files::{OutFault, Watched};
use krb_wire::NoMemory;
use std::alloc::Allocator;
use std::io::Write;

fn version_number(version: Version) -> u64
    ensures { result ≡ version_byte version }
{
    match version {
        Version::V3 => 3,
        Version::V4 => 4,
    }
}

// Gathers the text before the first ticket.
#[tactic(auto, using(crate::proofs::Arrays::head_written, crate::proofs::Arrays::one_more_member), unfolding(crate::specs::Cache::cache_members))]
fn begin<A: Allocator + Copy, B: Allocator>(
    file: &str,
    cache: &Ccache<B>,
    elements: &mut Elements<A>,
) -> Result<(), NoMemory>
    requires { elements.old.piece ≡ [] }
    ensures { OnOk result (Begins elements.old.gathered.items elements.new
        (head_tokens (cache_members file.now cache.now.state) (codes "tickets"))) }
{
    let piece = &mut elements.piece;
    piece.begin_file(file, "ccache", version_number(cache.version()))?;
    piece.name(Label::DefaultPrincipal, &cache.default_principal())?;
    piece.offset(cache.offset())?;
    elements.begin_array("tickets")?;
    Ok(())
}

/// Which credentials an array holds.
#[derive(Clone, Copy)]
enum Shown {
    Tickets,
    Configs,
}

// Sends a credential if the array holds it.
#[tactic(auto, using(crate::proofs::ReadBack::ticket_flat, crate::proofs::ReadBack::config_flat))]
fn send_if_shown<A: Allocator + Copy, W: Write>(
    shown: Shown,
    place: u32,
    credential: &CredView<'_>,
    elements: &mut Elements<A>,
    out: &mut Watched<W>,
) -> Result<(), OutFault>
    requires well { IsFalse out.old.failed }
    requires empty { elements.old.piece ≡ [] }
    ensures { Adds out.old out.new elements.old elements.new result
        (cons_option (shown_by shown (config_name credential.now.server) (place, credential.now)) []) }
{
    match (shown, config_name(credential)) {
        (Shown::Tickets, None) => {
            elements.piece.ticket(place, credential)?;
            elements.send(out)
        }
        (Shown::Configs, Some(name)) => {
            elements.piece.config(place, name, credential.ticket())?;
            elements.send(out)
        }
        _ => Ok(()),
    }
}

// Sends all elements of the array.
fn send_shown<A: Allocator + Copy, B: Allocator, W: Write>(
    shown: Shown,
    cache: &Ccache<B>,
    elements: &mut Elements<A>,
    out: &mut Watched<W>,
) -> Result<(), OutFault>
    requires well { IsFalse out.old.failed }
    requires empty { elements.old.piece ≡ [] }
    ensures { Adds out.old out.new elements.old elements.new result
        (shown_values shown (placed_credentials cache.now.state)) }
{
    'credentials: for (place, credential) in cache.credentials() {
        send_if_shown(shown, place, &credential, elements, out)?;
    }
    Ok(())
}

// Sends both arrays, from the first ticket to the last configuration entry.
fn send_arrays<A: Allocator + Copy, B: Allocator, W: Write>(
    cache: &Ccache<B>,
    elements: &mut Elements<A>,
    out: &mut Watched<W>,
) -> Result<(), OutFault>
    requires well { IsFalse out.old.failed }
    requires empty { elements.old.piece ≡ [] }
    requires first { elements.old.is_after ≡ false }
    ensures gathers { Gathers out.old out.new elements.old.gathered.items elements.new.gathered.items result
        (arrays_text cache.now.state) }
    ensures empty { OnOk result (elements.new.piece ≡ []) }
    ensures tickets { OnOk result (ArePlain (ticket_values (placed_credentials cache.now.state))) }
    ensures configs { OnOk result (ArePlain (config_values (placed_credentials cache.now.state))) }
{
    send_shown(Shown::Tickets, cache, elements, out)?;
    elements.next_array("config")?;
    send_shown(Shown::Configs, cache, elements, out)
}

/// Writes a cache as one JSON object (RFC 8259) and a newline: its file name, its default principal, its time offset,
/// an element for each ticket and each configuration entry, in file order, and the fault if the cache is damaged. No
/// session key is written. The text goes out in large writes; if one fails, a prefix of the text has been written.
pub fn cache_json<A: Allocator + Copy, B: Allocator, W: Write>(
    alloc: A,
    file: &str,
    cache: &Ccache<B>,
    out: &mut Watched<W>,
) -> Result<(), OutFault>
    requires { IsFalse out.old.failed }
    ensures prints { Prints out.old out.new result (cache_json_text file.now cache.now.state) }
    // A reader parses the text as this value.
    ensures reads_back { OnOk result (document (json_text (cache_value file.now cache.now.state))
        ≡ Some (cache_value file.now cache.now.state)) }
{
    let mut elements = Elements::new(alloc)?;
    begin(file, cache, &mut elements)?;
    send_arrays(cache, &mut elements, out)?;
    elements.end_file(cache.fault(), None, out)
}
