//! klist: lists a keytab or a credential cache.

pub(crate) mod overview;
pub(crate) mod ticket_check;
pub(crate) mod words;

ghost use Rattle.std.specs.Prelude.{◌≡◌, IsFalse};
ghost use Rattle.krb_text.specs.Gathered.{Prints};
ghost use Rattle.krb_driver.specs.Commands.{always, Displays, IsMade};
ghost use Rattle.krb_driver.specs.Composing.{made_effect};
ghost use Rattle.krb_readers.specs.Klist.{ListsAll, gap, klist_plan, listed_text, listed_verdict, listing_page, page_of, printed_after};

use crate::klist::words::{KlistOptions, ListKind};
use krb_cache_text::{CcColumns, list_cache};
use krb_ccache::Ccache;
use krb_driver::{
    CacheUse, FileError, FileName, KeytabUse, Made, MakeResult, OverFiles, RunEnd, RunError, Show,
    Verdict, World, open, run_over,
};
use krb_files::{Files, OutFault, Watched, put};
use krb_json::{cache_json, keytab_json};
use krb_keytab::Keytab;
use krb_keytab_text::{KtColumns, list_keytab};
use std::alloc::Allocator;
use std::io::{Read, Write};

#[derive(Clone, Copy)]
struct ListFiles<'f> {
    options: &'f KlistOptions,
}

/// A file that was opened, and the columns that are shown of it.
#[derive(Drop)]
pub enum Listed<A: Allocator> {
    Keytab(KtColumns, Keytab<A>),
    Cache(CcColumns, Ccache<A>),
}

/// A listing of the file that was opened, or its JSON.
#[derive(Drop)]
pub struct Listing<A: Allocator> {
    json: bool,
    /// Another listing was printed before.
    is_after: bool,
    of: Listed<A>,
}

// Prints what comes before a listing, but not before JSON: an empty line, if it is after another one.
#[tactic(auto, using(crate::proofs::Listed::prints_none))]
fn show_gap<W: Write>(json: bool, is_after: bool, out: &mut Watched<W>) -> Result<(), OutFault>
    requires { IsFalse out.old.failed }
    ensures { Prints out.old out.new result (gap json is_after) }
{
    if json || !is_after {
        return Ok(());
    }
    put(out, b"\n")
}

// Prints a file with its columns, or as JSON.
fn show_file<A: Allocator + Copy, W: Write>(
    alloc: A,
    json: bool,
    of: &Listed<A>,
    file: &str,
    out: &mut Watched<W>,
) -> Result<(), OutFault>
    requires { IsFalse out.old.failed }
    ensures { Prints out.old out.new result (listed_text json file.now of.now) }
{
    match of {
        Listed::Keytab(columns, keytab) => {
            if json {
                keytab_json(alloc, file, keytab, columns.keys, out)
            } else {
                list_keytab(alloc, file, keytab, *columns, out)
            }
        }
        Listed::Cache(columns, cache) => {
            if json {
                cache_json(alloc, file, cache, out)
            } else {
                list_cache(alloc, file, cache, *columns, out)
            }
        }
    }
}

// Returns the verdict of a listing, which reports the fault if there is one.
fn listed_verdict<A: Allocator>(of: &Listed<A>) -> Verdict
    ensures { result ≡ listed_verdict of.now }
{
    match of {
        Listed::Keytab(_, keytab) => Verdict::of_listing(keytab.fault()),
        Listed::Cache(_, cache) => Verdict::of_listing(cache.fault()),
    }
}

impl<A: Allocator + Copy> Show<A> for Listing<A> {
    ghost page = { listing_page };

    fn show<W: Write>(
        &self,
        alloc: A,
        file: &str,
        out: &mut Watched<W>,
    ) -> Result<Verdict, RunError> {
        show_gap(self.json, self.is_after, out)?;
        show_file(alloc, self.json, &self.of, file, out)?;
        Ok(listed_verdict(&self.of))
    }
}

// Returns what klist makes of the file that was opened.
fn shown<'a, A: Allocator>(
    command: &ListFiles<'_>,
    is_after: bool,
    file: FileName<'a>,
    of: Listed<A>,
) -> Result<Made<A, Listing<A>>, FileError<'a>>
    ensures { IsMade (Displays file.entry.name.now (page_of command.now.options.now.json is_after file.entry.name.now of))
        (made_effect listing_page file.entry.name.now result) }
{
    Ok(Made::Shows(Listing {
        json: command.options.json,
        is_after,
        of,
    }))
}

impl<A: Allocator + Copy> OverFiles<A> for ListFiles<'_> {
    /// Another listing was printed before.
    type State = bool;

    type Shown = Listing<A>;

    ghost plan = { λ c is_after file. always (klist_plan c.options.now is_after file) };

    ghost after = { printed_after };

    #[tactic(auto, unfolding(krb_driver::specs::Commands::always))]
    fn make<'f, F: Files>(
        &'f self,
        alloc: A,
        is_after: bool,
        file: FileName<'f>,
        files: &mut F,
    ) -> MakeResult<'f, A, Listing<A>> {
        match self.options.kind {
            ListKind::Keytab(columns) => {
                let keytab = open(alloc, KeytabUse::List(self.options.v1_order), files, file)?;
                shown(self, is_after, file, Listed::Keytab(columns, keytab))
            }
            ListKind::Cache(columns) => {
                let cache = open(alloc, CacheUse::Read, files, file)?;
                shown(self, is_after, file, Listed::Cache(columns, cache))
            }
        }
    }

    fn after(printed: bool, end: RunEnd) -> bool
        ensures { result ≡ printed_after printed end }
    {
        end.ending.is_ok() || printed
    }
}

/// Lists files, one after the other, with an empty line between two listings, and returns the greatest status. JSON is a
/// line each. Ends early if memory runs out or the output fails.
pub fn run_klist<A: Allocator + Copy, F: Files, R: Read, W: Write, E: Write>(
    alloc: A,
    options: &KlistOptions,
    names: &[FileName<'_>],
    world: &mut World<F, R, W, E>,
) -> u8
    ensures { ListsAll F.Files options.now world.old world.new result names.now }
{
    run_over(alloc, &ListFiles { options }, false, names, world).status
}
