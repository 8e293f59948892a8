//! The ends of the lines of cache records.

ghost use Rattle.krb_wire.specs.Text.{AppendedPart};
ghost use Rattle.krb_ccache.specs.declared.version.Version.TheVariants.{V4};
ghost use Rattle.krb_ccache.specs.Config.{config_parts};
ghost use Rattle.krb_cache_text.specs.Reply.{ticket_tail, config_tail, cache_record_tail};

use crate::credential::append_about;
use krb_ccache::{ConfigName, CredView, Version, config_name, read_credential};
use krb_keytab_text::RecordFormat;
use krb_text::{append, append_byte, append_escaped, append_labelled};
use krb_wire::{NoMemory, write_name};
use std::alloc::Allocator;
use std::marker::Model;

/// The format in which the records of a cache are read: that of its version.
#[derive(Clone, Copy, Debug)]
pub struct CcFormat(pub Version);

impl Model for CcFormat {
    ghost use Rattle.krb_ccache.specs.declared.version.Version.{Version as CacheVersion};

    ghost Value = { CacheVersion };

    ghost view = { λ f. f.0 };

    ghost inverse = { λ version. record { 0 = version } };
}

fn append_ticket_tail<A: Allocator>(
    ticket: &CredView<'_>,
    out: &mut Vec<u8, A>,
) -> Result<(), NoMemory>
    ensures { AppendedPart (ticket_tail ticket.now) out.old out.new result }
{
    append_labelled(b" etype ", ticket.enctype() as u32, out)?;
    append_byte(b' ', out)?;
    write_name(ticket.server(), out)?;
    append_byte(b'\n', out)
}

fn append_config_tail<A: Allocator>(
    name: ConfigName<'_>,
    out: &mut Vec<u8, A>,
) -> Result<(), NoMemory>
    ensures { AppendedPart (config_tail (config_parts name.entry)) out.old out.new result }
{
    append(b" config ", out)?;
    append_escaped(name.key, out)?;
    append_about(name.principal, out)?;
    append_byte(b'\n', out)
}

impl RecordFormat for CcFormat {
    ghost tail_of = { cache_record_tail };

    ghost rewritten = { V4 };

    fn append_tail<A: Allocator>(self, bytes: &[u8], out: &mut Vec<u8, A>) -> Result<(), NoMemory> {
        let Some(credential) = read_credential(self.0, bytes) else {
            return append_byte(b'\n', out);
        };
        match config_name(&credential) {
            None => append_ticket_tail(&credential, out),
            Some(name) => append_config_tail(name, out),
        }
    }

    fn rewritten() -> CcFormat {
        CcFormat(Version::V4)
    }
}
