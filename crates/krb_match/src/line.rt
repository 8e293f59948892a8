//! The line of a ticket that was matched.

ghost use Rattle.std.specs.Prelude.{◌≡◌, ◌++◌, [], OnOk, codes, decimal, true, if◌then◌else◌};
ghost use Rattle.krb_match.specs.Said.{details, etype_list, etypes_text, numbers};
ghost use Rattle.krb_match.specs.Tickets.{matched_line};

use crate::judgement::Judgement;
use crate::ticket::MatchedTicket;
use itoa::Buffer;
use krb_ccache::TicketEncryption;
use krb_text::{append, append_byte, append_labelled};
use krb_wire::NoMemory;
use std::alloc::Allocator;

// Appends the version and the enctype of a ticket, if they were read.
fn append_numbers<A: Allocator>(
    encryption: Option<TicketEncryption>,
    out: &mut Vec<u8, A>,
) -> Result<(), NoMemory>
    ensures { OnOk result (out.new.items ≡ out.old.items ++ numbers encryption) }
{
    let Some(encryption) = encryption else {
        return Ok(());
    };
    match encryption.kvno {
        Some(kvno) => append_labelled(b" kvno ", kvno, out)?,
        None => append(b" kvno -", out)?,
    }
    append(b" etype ", out)?;
    append(Buffer::new().format(encryption.etype).as_bytes(), out)
}

// Appends an enctype, after a comma unless it is the first.
fn append_listed<A: Allocator>(
    is_first: bool,
    etype: u32,
    out: &mut Vec<u8, A>,
) -> Result<(), NoMemory>
    ensures { OnOk result (out.new.items ≡ out.old.items ++ ((if is_first then [] else codes ",") ++ decimal etype)) }
{
    append_labelled(if is_first { b"" } else { b"," }, etype, out)
}

// Appends enctypes with commas between them.
fn append_list<A: Allocator>(etypes: &[u32], out: &mut Vec<u8, A>) -> Result<(), NoMemory>
    ensures { OnOk result (out.new.items ≡ out.old.items ++ etype_list true etypes.now) }
{
    let mut is_first = true;
    'etypes: for etype in etypes {
        append_listed(is_first, *etype, out)?;
        is_first = false;
    }
    Ok(())
}

// Appends at most eight enctypes, and whether there are more.
#[tactic(auto, unfolding(crate::specs::Said::etypes_text))]
fn append_etypes<A: Allocator>(etypes: &[u32], out: &mut Vec<u8, A>) -> Result<(), NoMemory>
    ensures { OnOk result (out.new.items ≡ out.old.items ++ etypes_text etypes.now) }
{
    let shown = etypes.len().min(8);
    append_list(&etypes[..shown], out)?;
    if etypes.len() > 8 {
        return append(b",..", out);
    }
    Ok(())
}

// Appends what a line has between the ticket's place and its name.
fn append_details<A: Allocator>(
    encryption: Option<TicketEncryption>,
    judgement: &Judgement,
    out: &mut Vec<u8, A>,
) -> Result<(), NoMemory>
    ensures { OnOk result (out.new.items ≡ out.old.items ++ details encryption judgement.now) }
{
    match judgement {
        Judgement::User | Judgement::Unread => Ok(()),
        Judgement::Name => append_numbers(encryption, out),
        Judgement::Kvno(newest) => {
            append_numbers(encryption, out)?;
            append_labelled(b" has ", *newest, out)
        }
        Judgement::Etype(etypes) => {
            append_numbers(encryption, out)?;
            append(b" has ", out)?;
            append_etypes(etypes.as_slice(), out)
        }
        Judgement::Opens(place) => {
            append_numbers(encryption, out)?;
            append_labelled(b" at ", *place, out)
        }
    }
}

/// Appends the line of a ticket. If an allocation fails, part of it may have been appended.
pub fn append_matched<A: Allocator, B: Allocator>(
    ticket: &MatchedTicket<B>,
    out: &mut Vec<u8, A>,
) -> Result<(), NoMemory>
    ensures { OnOk result (out.new.items ≡ out.old.items ++ matched_line ticket.now) }
{
    append(ticket.judgement.word().as_bytes(), out)?;
    append_labelled(b" ", ticket.place, out)?;
    append_details(ticket.encryption, &ticket.judgement, out)?;
    append_byte(b' ', out)?;
    append(ticket.name(), out)?;
    append_byte(b'\n', out)
}
