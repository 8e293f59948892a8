//! What a keytab says of the tickets of a cache as JSON.

ghost use Rattle.std.specs.Prelude.{◌≡◌, ◌++◌, [], ◌∷◌, Some, OnOk, IsFalse, codes, map, take};
ghost use Rattle.json.specs.Json.{document};
ghost use Rattle.json.specs.Token.{begin_object};
ghost use Rattle.json.specs.Tree.{items_tokens, json_tokens};
ghost use Rattle.json.specs.Value.{items_of};
ghost use Rattle.krb_text.specs.Gathered.{Prints};
ghost use Rattle.krb_json.specs.Escaped.{json_text};
ghost use Rattle.krb_json.specs.Matches.{etypes_value, found, judgement_members, match_json_text, match_members, match_value, matches_value, ticket_numbers};
ghost use Rattle.krb_json.specs.Members.{array_of, number_of};
ghost use Rattle.krb_json.specs.Pieces.{Adds, Begins, head_tokens, member_tokens, tokens_of};

use crate::elements::Elements;
use crate::piece::Piece;
use crate::put::Label;
use crate::ticket::kvno_of;
use krb_ccache::TicketEncryption;
use krb_files::{OutFault, Watched};
use krb_match::{Judgement, MatchedTicket};
use krb_walk::Fault;
use krb_wire::NoMemory;
use std::alloc::Allocator;
use std::io::Write;

// Returns what is found in the keytab: the place of the entry that opens a ticket, or the newest version of its name.
fn found(judgement: &Judgement) -> (Option<i64>, Option<i64>)
    ensures { result ≡ found judgement.now }
{
    match judgement {
        Judgement::Opens(place) => (Some(i64::from(*place)), None),
        Judgement::Kvno(newest) => (None, Some(i64::from(*newest))),
        _ => (None, None),
    }
}

impl<A: Allocator> Piece<A> {
    // Begins the object of a cache, and writes the names of the keytab's file and of its own.
    #[tactic(auto, unfolding(crate::specs::Matches::match_members))]
    fn begin_matches(&mut self, keytab: &str, file: &str) -> Result<(), NoMemory>
        ensures { OnOk result (self.new
            ≡ self.old ++ begin_object ∷ tokens_of (match_members keytab.now file.now)) }
    {
        self.begin_object()?;
        self.string("keytab", keytab)?;
        self.string("file", file)
    }

    // Writes enctypes as the elements of an array, and ends it.
    fn elements(&mut self, etypes: &[u32]) -> Result<(), NoMemory>
        ensures { OnOk result (self.new
            ≡ self.old ++ items_tokens (items_of (map number_of etypes.now))) }
    {
        'etypes: for etype in etypes {
            self.element(u64::from(*etype))?;
        }
        self.end_array()
    }

    // Writes at most eight enctypes.
    fn etypes(&mut self, etypes: &[u32]) -> Result<(), NoMemory>
        ensures { OnOk result (self.new
            ≡ self.old ++ member_tokens (codes "keytab_etypes", array_of (map number_of (take 8 etypes.now)))) }
    {
        self.begin_array("keytab_etypes")?;
        self.elements(&etypes[..etypes.len().min(8)])
    }

    // Writes the enctypes that fit a ticket, if none of them is its own, or null.
    fn keytab_etypes(&mut self, judgement: &Judgement) -> Result<(), NoMemory>
        ensures { OnOk result (self.new
            ≡ self.old ++ member_tokens (codes "keytab_etypes", etypes_value judgement.now)) }
    {
        match judgement {
            Judgement::Etype(etypes) => self.etypes(etypes.as_slice()),
            _ => self.null("keytab_etypes"),
        }
    }

    // Writes the version and the enctype of a ticket.
    #[tactic(auto, unfolding(crate::specs::Matches::ticket_numbers))]
    fn ticket_numbers(&mut self, encryption: Option<TicketEncryption>) -> Result<(), NoMemory>
        ensures { OnOk result (self.new ≡ self.old ++ tokens_of (ticket_numbers encryption)) }
    {
        self.integer("kvno", kvno_of(encryption))?;
        self.integer("etype", encryption.map(|it| it.etype as i64))
    }

    // Writes what is said of a ticket.
    fn judgement(&mut self, judgement: &Judgement) -> Result<(), NoMemory>
        ensures { OnOk result (self.new ≡ self.old ++ tokens_of (judgement_members judgement.now)) }
    {
        let (place, newest) = found(judgement);
        self.string("match", judgement.word())?;
        self.integer("keytab_place", place)?;
        self.integer("keytab_kvno", newest)?;
        self.keytab_etypes(judgement)?;
        Ok(())
    }

    // Writes a ticket as an object.
    #[tactic(auto, using(crate::proofs::Arrays::joins))]
    fn matched<B: Allocator>(&mut self, ticket: &MatchedTicket<B>) -> Result<(), NoMemory>
        ensures { OnOk result (self.new ≡ self.old ++ json_tokens (match_value ticket.now)) }
    {
        self.begin_object()?;
        self.number("place", ticket.place as u64)?;
        self.text(Label::Name, ticket.name())?;
        self.ticket_numbers(ticket.encryption)?;
        self.judgement(&ticket.judgement)?;
        self.end_object()?;
        Ok(())
    }
}

// Gathers the text before the first ticket.
#[tactic(auto, using(crate::proofs::Arrays::head_written))]
fn begin<A: Allocator + Copy>(
    keytab: &str,
    file: &str,
    elements: &mut Elements<A>,
) -> Result<(), NoMemory>
    requires { elements.old.piece ≡ [] }
    ensures { OnOk result (Begins elements.old.gathered.items elements.new
        (head_tokens (match_members keytab.now file.now) (codes "tickets"))) }
{
    elements.piece.begin_matches(keytab, file)?;
    elements.begin_array("tickets")?;
    Ok(())
}

// Sends a ticket.
fn send_ticket<A: Allocator + Copy, B: Allocator, W: Write>(
    ticket: &MatchedTicket<B>,
    elements: &mut Elements<A>,
    out: &mut Watched<W>,
) -> Result<(), OutFault>
    requires well { IsFalse out.old.failed }
    requires empty { elements.old.piece ≡ [] }
    ensures { Adds out.old out.new elements.old elements.new result (match_value ticket.now ∷ []) }
{
    elements.piece.matched(ticket)?;
    elements.send(out)
}

// Sends tickets.
fn send_tickets<A: Allocator + Copy, B: Allocator, W: Write>(
    tickets: &[MatchedTicket<B>],
    elements: &mut Elements<A>,
    out: &mut Watched<W>,
) -> Result<(), OutFault>
    requires well { IsFalse out.old.failed }
    requires empty { elements.old.piece ≡ [] }
    ensures { Adds out.old out.new elements.old elements.new result (map match_value tickets.now) }
{
    'tickets: for ticket in tickets {
        send_ticket(ticket, elements, out)?;
    }
    Ok(())
}

/// Writes what a keytab says of the tickets of a cache as one JSON object (RFC 8259) and a newline: the names of both
/// files, an element for each ticket, the fault, and the status. The text goes out in large writes; if one fails, a prefix
/// of the text has been written.
pub fn match_json<A: Allocator + Copy, B: Allocator, W: Write>(
    alloc: A,
    keytab: &str,
    file: &str,
    tickets: &[MatchedTicket<B>],
    fault: Option<Fault>,
    status: u8,
    out: &mut Watched<W>,
) -> Result<(), OutFault>
    requires { IsFalse out.old.failed }
    ensures prints { Prints out.old out.new result (match_json_text keytab.now file.now tickets.now fault status) }
    // A reader parses the text as this value.
    ensures reads_back { OnOk result (document (json_text (matches_value keytab.now file.now tickets.now fault status))
        ≡ Some (matches_value keytab.now file.now tickets.now fault status)) }
{
    let mut elements = Elements::new(alloc)?;
    begin(keytab, file, &mut elements)?;
    send_tickets(tickets, &mut elements, out)?;
    elements.end_file(fault, Some(status), out)
}
