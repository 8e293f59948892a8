//! A cache in an overview, as one line of JSON.

ghost use Rattle.std.specs.Prelude.{◌≡◌, ◌++◌, Some, OnOk};
ghost use Rattle.json.specs.Json.{document};
ghost use Rattle.json.specs.Tree.{json_tokens};
ghost use Rattle.krb_json.specs.Escaped.{json_text};
ghost use Rattle.krb_json.specs.Summary.{summary_value, summary_text};

use crate::piece::Piece;
use crate::put::Label;
use krb_wire::{Name, NoMemory};
use std::alloc::Allocator;

/// What an overview shows of a cache, beside its file name and its default principal.
#[derive(Clone, Copy)]
pub struct CacheSummary {
    /// The number of tickets.
    pub tickets: u64,
    /// When the last of the tickets that count ends, or `None` if none counts.
    pub endtime: Option<u32>,
    /// Whether no ticket is left to go on with.
    pub is_expired: bool,
}

impl<A: Allocator> Piece<A> {
    // Writes a cache in an overview as an object.
    fn summary<N: Name>(
        &mut self,
        file: &str,
        principal: &N,
        summary: CacheSummary,
    ) -> Result<(), NoMemory>
        ensures { OnOk result (self.new
            ≡ self.old ++ json_tokens (summary_value file.now (N.parts principal.now) summary)) }
    {
        self.begin_object()?;
        self.string("file", file)?;
        self.string("kind", "ccache")?;
        self.name(Label::DefaultPrincipal, principal)?;
        self.number("tickets", summary.tickets)?;
        self.integer("endtime", summary.endtime.map(|seconds| seconds as i64))?;
        self.boolean("expired", summary.is_expired)?;
        self.end_object()
    }
}

/// Appends a cache in an overview as one JSON object (RFC 8259) and a newline: its file name, its default principal and
/// its summary.
#[tactic(auto, using(crate::proofs::ReadBack::summary_is_read))]
pub fn append_summary<A: Allocator + Copy, N: Name>(
    alloc: A,
    file: &str,
    principal: &N,
    summary: CacheSummary,
    out: &mut Vec<u8, A>,
) -> Result<(), NoMemory>
    ensures text { OnOk result (out.new.items
        ≡ out.old.items ++ summary_text file.now (N.parts principal.now) summary) }
    // A reader parses the text as this value.
    ensures reads_back { OnOk result (document (json_text
        (summary_value file.now (N.parts principal.now) summary))
        ≡ Some (summary_value file.now (N.parts principal.now) summary)) }
{
    let mut piece = Piece::new(alloc);
    piece.summary(file, principal, summary)?;
    piece.append_to(false, out)?;
    Ok(out.push(b'\n')?)
}
