//! Opens a file as what a command needs. Each error names the file.

ghost use Rattle.std.specs.Prelude.{◌≡◌, ◌⊎◌, Err};
ghost use Rattle.krb_driver.specs.Commands.{GivesOf};
ghost use Rattle.krb_driver.specs.Composing.{Opens, Tries, opened};
ghost use Rattle.krb_driver.specs.Loading.{EndsLoads, cache_for, cache_refusal, keytab_for, keytab_refusal, result_map, unless_refused};
ghost use Rattle.krb_driver.specs.declared.error.RunError.TheVariants as error;
ghost use Rattle.krb_driver.specs.declared.verdict.FileKind.TheVariants as kind;
ghost use Rattle.krb_files.specs.Files.{answer_of};

use crate::command::FileError;
use crate::error::RunError;
use crate::file_name::FileName;
use crate::loading::{Loaded, cache_of, keytab_of, keytab_or_fresh, keytab_or_new};
use crate::not_opened::Expected;
use crate::verdict::FileKind;
use krb_ccache::{Ccache, Version};
use krb_files::Files;
use krb_keytab::Keytab;
use krb_walk::Code;
use krb_wire::{Order, USUAL_LIMIT};
use std::alloc::Allocator;

/// What a file is opened as.
pub trait Opener<A: Allocator + Copy>: Copy {
    ghost use Rattle.std.specs.Prelude.{Bool, Result};
    ghost use Rattle.krb_driver.specs.declared.error.RunError.{RunError};
    ghost use Rattle.krb_driver.specs.Loading.{EndsLoads, GivesOrIsSpent, result_map};
    ghost use Rattle.krb_files.specs.Loading.{Answer};

    type Opened;

    /// What is known of what was opened.
    ghost State: { Type 0 };

    ghost state_of: { Self.Opened → State };

    /// What is opened by the result of a load, of a file that is to be saved in place or not.
    ghost gives: { Self → Bool → Answer → Result State RunError };

    /// Loads the file of a name and opens it.
    fn load<F: Files>(
        &self,
        alloc: A,
        in_place: bool,
        files: &mut F,
        name: &str,
    ) -> Result<Self::Opened, RunError>
        ensures gives { GivesOrIsSpent F.Files files.old name.now (gives self.now in_place) (result_map state_of result) files.new }
        ensures ends { EndsLoads (gives self.now in_place) };
}

/// Opens a file.
pub fn give<'a, A: Allocator + Copy, O: Opener<A>, F: Files>(
    alloc: A,
    opener: O,
    files: &mut F,
    file: FileName<'a>,
) -> Result<O::Opened, FileError<'a>>
    ensures { GivesOf F.Files files.old file.entry (O.gives opener file.entry.in_place) (opened O.state_of result) files.new }
{
    if file.is_other_type {
        return Err(FileError {
            file: file.name,
            error: RunError::OtherType(file.kind, file.source),
        });
    }
    match opener.load(alloc, file.in_place, files, file.name) {
        Ok(opened) => Ok(opened),
        Err(error) => Err(FileError::of(file, error)),
    }
}

/// Opens a file, for a command that an error ends.
#[tactic(auto, using(crate::proofs::Making::opens_by))]
pub fn open<'a, A: Allocator + Copy, O: Opener<A>, F: Files>(
    alloc: A,
    opener: O,
    files: &mut F,
    file: FileName<'a>,
) -> Result<O::Opened, FileError<'a>>
    ensures { Opens F.Files files.old file.entry (O.gives opener file.entry.in_place) (opened O.state_of result) files.new }
{
    give(alloc, opener, files, file)
}

/// Opens a file, for a command that goes on with the error too.
pub fn try_open<A: Allocator + Copy, O: Opener<A>, F: Files>(
    alloc: A,
    opener: O,
    files: &mut F,
    file: FileName<'_>,
) -> Result<O::Opened, RunError>
    ensures { Tries F.Files files.old file.entry (O.gives opener file.entry.in_place) (result_map O.state_of result) files.new }
{
    match give(alloc, opener, files, file) {
        Ok(opened) => Ok(opened),
        Err(met) => Err(met.error),
    }
}

/// A keytab, by what it is for. The byte order is that of version 1.
#[derive(Clone, Copy)]
pub enum KeytabUse {
    Read(Order),
    List(Order),
    /// A missing file gives an empty keytab of version 2, unless it is to be saved in place.
    Edit(Order),
    /// The keytab is not to be damaged.
    Change(Order),
    /// The keytab is not to be damaged. A file of no bytes gives an empty one of version 2, and so does a missing one that
    /// is not to be saved in place.
    Fill(Order),
}

// Refuses a damaged keytab.
fn whole<A: Allocator>(given: Result<Keytab<A>, RunError>) -> Result<Keytab<A>, RunError>
    ensures { result_map (λ k. k.state) result ≡ unless_refused (error.Refused kind.Keytab) keytab_refusal (result_map (λ k. k.state) given) }
{
    match given {
        Ok(keytab) if keytab.fault().is_some() => {
            Err(RunError::Refused(FileKind::Keytab, Code::Damaged))
        }
        given => given,
    }
}

impl KeytabUse {
    // Opens what was loaded.
    #[tactic(auto, unfolding(crate::specs::Loading::whole_in, crate::specs::Loading::whole_or_empty))]
    fn opened<A: Allocator + Copy>(
        self,
        alloc: A,
        in_place: bool,
        loaded: Loaded<A>,
    ) -> Result<Keytab<A>, RunError>
        ensures gives { (result_map (λ k. k.state) result ≡ Err error.NoMemory)
            ⊎ (result_map (λ k. k.state) result ≡ keytab_for self in_place (answer_of loaded)) }
        ensures ends { EndsLoads (keytab_for self in_place) }
    {
        match self {
            KeytabUse::Read(order) => keytab_of(Expected::Keytab, order, loaded?),
            KeytabUse::List(order) => keytab_of(Expected::KeytabToList, order, loaded?),
            KeytabUse::Edit(order) => keytab_or_new(alloc, order, in_place, loaded),
            KeytabUse::Change(order) => whole(keytab_of(Expected::Keytab, order, loaded?)),
            KeytabUse::Fill(order) => whole(keytab_or_fresh(alloc, order, in_place, loaded)),
        }
    }
}

impl<A: Allocator + Copy> Opener<A> for KeytabUse {
    ghost use Rattle.krb_keytab.specs.Store.{KeytabState};
    ghost use Rattle.krb_driver.specs.Loading.{keytab_for};

    type Opened = Keytab<A>;

    ghost State = { KeytabState };

    ghost state_of = { λ k. k.state };

    ghost gives = { keytab_for };

    fn load<F: Files>(
        &self,
        alloc: A,
        in_place: bool,
        files: &mut F,
        name: &str,
    ) -> Result<Keytab<A>, RunError> {
        let loaded = files.load(alloc, name, USUAL_LIMIT);
        self.opened(alloc, in_place, loaded)
    }
}

/// A cache, by what it is for.
#[derive(Clone, Copy)]
pub enum CacheUse {
    Read,
    /// Its tickets are matched.
    Match,
    /// The cache is to be of version 4, and not damaged.
    Change,
}

// Refuses a cache of version 3, which is read-only, and a damaged one.
fn writable<A: Allocator>(given: Result<Ccache<A>, RunError>) -> Result<Ccache<A>, RunError>
    ensures { result_map (λ k. k.state) result ≡ unless_refused (error.Refused kind.Cache) cache_refusal (result_map (λ k. k.state) given) }
{
    let cache = given?;
    let code = if cache.version() == Version::V3 {
        Code::ReadOnly
    } else if cache.fault().is_some() {
        Code::Damaged
    } else {
        return Ok(cache);
    };
    Err(RunError::Refused(FileKind::Cache, code))
}

impl CacheUse {
    // Opens what was loaded.
    #[tactic(auto, unfolding(crate::specs::Loading::writable_in))]
    fn opened<A: Allocator>(self, loaded: Loaded<A>) -> Result<Ccache<A>, RunError>
        ensures gives { result_map (λ k. k.state) result ≡ cache_for self (answer_of loaded) }
        ensures ends { EndsLoads (cache_for self) }
    {
        match self {
            CacheUse::Read => cache_of(Expected::Cache, loaded?),
            CacheUse::Match => cache_of(Expected::CacheToMatch, loaded?),
            CacheUse::Change => writable(cache_of(Expected::Cache, loaded?)),
        }
    }
}

impl<A: Allocator + Copy> Opener<A> for CacheUse {
    ghost use Rattle.krb_ccache.specs.Store.{CacheState};
    ghost use Rattle.krb_driver.specs.Loading.{cache_for};

    type Opened = Ccache<A>;

    ghost State = { CacheState };

    ghost state_of = { λ k. k.state };

    ghost gives = { λ use_ in_place. cache_for use_ };

    fn load<F: Files>(
        &self,
        alloc: A,
        in_place: bool,
        files: &mut F,
        name: &str,
    ) -> Result<Ccache<A>, RunError> {
        self.opened(files.load(alloc, name, USUAL_LIMIT))
    }
}
