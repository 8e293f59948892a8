//! What ktmatch shows of a cache.

use krb_driver::{Judged, RunError, Show, Verdict};
use krb_files::Watched;
use krb_json::match_json;
use krb_match::MatchedTicket;
use std::alloc::Allocator;
use std::io::Write;

/// The tickets of a cache that are shown as JSON, with the name of the keytab, and the verdict.
#[derive(Drop)]
pub struct MatchObject<'f, A: Allocator> {
    pub keytab: &'f str,
    pub tickets: Vec<MatchedTicket<A>, A>,
    pub judged: Judged,
}

impl<A: Allocator + Copy> Show<A> for MatchObject<'_, A> {
    ghost use Rattle.krb_readers.specs.Ktmatch.{match_page};

    ghost page = { match_page };

    fn show<W: Write>(
        &self,
        alloc: A,
        file: &str,
        out: &mut Watched<W>,
    ) -> Result<Verdict, RunError> {
        let (keytab, tickets, fault) = (self.keytab, &self.tickets, self.judged.fault);
        let verdict = Verdict::Judged(self.judged);
        let status = verdict.status();
        match_json(alloc, keytab, file, tickets, fault, status, out)?;
        Ok(verdict)
    }
}
