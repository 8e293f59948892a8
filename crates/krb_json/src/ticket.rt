//! JSON of the tickets and of the configuration entries of a cache.

ghost use Rattle.std.specs.Prelude.{◌≡◌, ◌++◌, OnOk, codes, pos, option_map, option_and_then, option_copied};
ghost use Rattle.krb_wire.specs.Names.{name_text};
ghost use Rattle.krb_ccache.specs.Config.{config_parts};
ghost use Rattle.krb_ccache.specs.Ticket.{ticket_encryption, ticket_server};
ghost use Rattle.json.specs.Tree.{json_tokens};
ghost use Rattle.krb_json.specs.Cache.{party_members, time_members, flag_members, name_of_etype, own_members, size_members, ticket_value, config_value, text_or_null_member};
ghost use Rattle.krb_json.specs.Pieces.{tokens_of, member_tokens};

use crate::piece::Piece;
use crate::put::Label;
use krb_ccache::{ConfigName, CredView, TicketEncryption, ticket_encryption, ticket_server};
use krb_text::etype_name;
use krb_wire::NoMemory;
use std::alloc::Allocator;

// Returns the name of a ticket's own enctype, if it has one.
fn name_of(encryption: Option<TicketEncryption>) -> Option<&'static str>
    ensures { option_copied result ≡ option_and_then (λ e. name_of_etype e.etype) encryption }
{
    etype_name(u16::try_from(encryption?.etype).ok()?)
}

/// Returns a ticket's own kvno, if it has one.
pub fn kvno_of(encryption: Option<TicketEncryption>) -> Option<i64>
    ensures { result ≡ option_and_then (λ e. option_map pos e.kvno) encryption }
{
    Some(encryption?.kvno? as i64)
}

impl<A: Allocator + Copy> Piece<A> {
    // Writes a ticket's place, client and server.
    #[tactic(auto, unfolding(crate::specs::Cache::party_members))]
    fn parties(&mut self, place: u32, ticket: &CredView<'_>) -> Result<(), NoMemory>
        ensures { OnOk result (self.new ≡ self.old ++ tokens_of (party_members (place, ticket.now))) }
    {
        self.number("place", place as u64)?;
        self.name(Label::Client, ticket.client())?;
        self.name(Label::Server, ticket.server())
    }

    // Writes its four times.
    #[tactic(auto, using(std::proofs::lemmas::List::append_assoc), unfolding(crate::specs::Cache::time_members))]
    fn times(&mut self, ticket: &CredView<'_>) -> Result<(), NoMemory>
        ensures { OnOk result (self.new ≡ self.old ++ tokens_of (time_members ticket.now.times)) }
    {
        self.number("authtime", ticket.authtime() as u64)?;
        self.number("starttime", ticket.starttime() as u64)?;
        self.number("endtime", ticket.endtime() as u64)?;
        self.number("renew_till", ticket.renew_till() as u64)?;
        Ok(())
    }

    // Writes its flags, as letters and as a number.
    fn flags(&mut self, flags: u32) -> Result<(), NoMemory>
        ensures { OnOk result (self.new ≡ self.old ++ tokens_of (flag_members flags)) }
    {
        self.letters("flags", flags)?;
        self.number("flags_value", flags as u64)?;
        Ok(())
    }

    // Writes the server that a ticket names itself, or null if it does not.
    fn own_server(&mut self, ticket: &[u8]) -> Result<(), NoMemory>
        ensures { OnOk result (self.new
            ≡ self.old ++ member_tokens (text_or_null_member (codes "ticket_server")
            (option_map name_text (ticket_server ticket.now)))) }
    {
        match ticket_server(ticket) {
            Some(server) => self.name(Label::TicketServer, &server.copy(self.alloc)?),
            None => self.null("ticket_server"),
        }
    }

    // Writes a ticket's own enctype, the name of that, the kvno, and its server, or null for what it does not have.
    fn own(&mut self, ticket: &[u8]) -> Result<(), NoMemory>
        ensures { OnOk result (self.new
            ≡ self.old ++ tokens_of (own_members (ticket_encryption ticket.now) (ticket_server ticket.now))) }
    {
        let encryption = ticket_encryption(ticket);
        self.integer("ticket_etype", encryption.map(|it| it.etype as i64))?;
        self.string_or_null("ticket_etype_name", name_of(encryption))?;
        self.integer("ticket_kvno", kvno_of(encryption))?;
        self.own_server(ticket)?;
        Ok(())
    }

    // Writes whether it is encrypted in another ticket's session key, its number of addresses, the ticket's length, and
    // what that has itself.
    #[tactic(auto, using(crate::proofs::Arrays::joins), unfolding(crate::specs::Cache::size_members))]
    fn sizes(&mut self, ticket: &CredView<'_>) -> Result<(), NoMemory>
        ensures { OnOk result (self.new ≡ self.old ++ tokens_of (size_members ticket.now)) }
    {
        self.boolean("is_skey", ticket.is_skey() != 0)?;
        self.number("addresses", ticket.address_count() as u64)?;
        self.number("ticket_length", ticket.ticket().len() as u64)?;
        self.own(ticket.ticket())?;
        Ok(())
    }

    /// Writes a ticket of a cache as an object.
    #[tactic(auto, using(crate::proofs::Arrays::joins), unfolding(crate::specs::Cache::ticket_value))]
    pub fn ticket(&mut self, place: u32, ticket: &CredView<'_>) -> Result<(), NoMemory>
        ensures { OnOk result (self.new
            ≡ self.old ++ json_tokens (ticket_value (place, ticket.now))) }
    {
        self.begin_object()?;
        self.parties(place, ticket)?;
        self.times(ticket)?;
        self.flags(ticket.flags())?;
        self.etype(ticket.enctype())?;
        self.sizes(ticket)?;
        self.end_object()?;
        Ok(())
    }
}

impl<A: Allocator> Piece<A> {
    // Writes the principal that a configuration entry is about, or null if it has none.
    fn about(&mut self, principal: Option<&[u8]>) -> Result<(), NoMemory>
        ensures { OnOk result (self.new
            ≡ self.old ++ member_tokens (text_or_null_member (codes "principal") (option_copied principal.entry))) }
    {
        match principal {
            Some(text) => self.text(Label::Principal, text),
            None => self.null("principal"),
        }
    }

    /// Writes a configuration entry of a cache as an object.
    #[tactic(auto, unfolding(crate::specs::Cache::config_value))]
    pub fn config(&mut self, place: u32, name: ConfigName<'_>, value: &[u8]) -> Result<(), NoMemory>
        ensures { OnOk result (self.new
            ≡ self.old ++ json_tokens (config_value place (config_parts name.entry) value.now)) }
    {
        self.begin_object()?;
        self.number("place", place as u64)?;
        self.text(Label::Key, name.key)?;
        self.about(name.principal)?;
        self.text(Label::Value, value)?;
        self.end_object()
    }
}
