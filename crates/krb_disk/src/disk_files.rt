//! Files on a disk, by name.

ghost use Rattle.std.specs.Prelude.{◌≡◌, ◌≤◌, ◌<◌, true, false, [], ◌∷◌, None, Some, is_ok, IfOk, OnOk, OnErr, IfErr, IsSome, IsTrue, vec_len};
ghost use Rattle.krb_files.specs.Log.{entries_of, last_name};
ghost use Rattle.krb_disk.specs.Aftermaths.{IsDone, IsRefused, load_fault, save_fault};
ghost use Rattle.krb_disk.specs.DiskFiles.{Disk, Fails, CountsLoad, CountsSave, AnswersFromDisk, SavesToDisk, is_in_place, left};
ghost use Rattle.krb_disk.specs.Holding.{IsHeldAs, is_held, name_of};

mod holding;

use crate::calls::Calls;
use crate::fault::{DiskFault, ReadFault, Unsaved};
use crate::held::{Held, NotHeld};
use crate::looks::Found;
use crate::looks::text::check_len;
use crate::old::Way;
use crate::open_file::System;
use krb_files::{Aftermath, Cause, Files, LoadFault, Log, Node, SaveFault};
use std::alloc::Allocator;
use std::marker::Model;
use std::rt;

/// The files on a disk. Contracts assume nothing of their contents, and see a `Disk`. A load reads the whole file. A
/// save writes a new file and renames it over the old one, so that whatever fails, the file is the old or the new one;
/// or it writes over the old one. A held file is saved only if it is as it was when it was held or, later, loaded.
#[derive(Drop)]
pub struct DiskFiles<'a, R: rt::Files + Alloc> {
    calls: Calls<'a, R>,
    failures: u64,
    cause: Option<Cause>,
    /// The permission bits of the file loaded last, if it is a plain file.
    mode: Option<u32>,
    /// The name of the file to be held, and the hold, or why it could not be held.
    held_name: Option<Log>,
    hold: Option<Result<Held<R>, NotHeld<R::A>>>,
    /// The path at which something is in the way of the last save.
    in_the_way: Option<String<R::A>>,
    only_plain: bool,
    way: Way,
    /// What the last save left behind.
    aftermath: Option<Aftermath>,
}

impl<'a, R: rt::Files + Alloc> Model for DiskFiles<'a, R> {
    ghost Value = { Disk };

    ghost view = { λ files. record {
      failures = files.failures;
      cause = files.cause;
      saved = entries_of files.calls.saved;
      mode = files.mode;
      held = last_name files.held_name;
      is_held = is_held files.hold;
      only_plain = files.only_plain;
      in_place = is_in_place files.way;
      aftermath = files.aftermath;
    } };

    // A counted failure has a cause, and what is held is the file that was to be.
    ghost invariant = { λ files. (0 < files.failures → IsSome files.cause) × IsHeldAs (last_name files.held_name) files.hold };
}

impl<'a, R: rt::Files + Alloc> DiskFiles<'a, R> {
    /// Returns the files that `rt` reaches, with no failed call yet.
    pub fn new(rt: &'a R) -> DiskFiles<'a, R>
        ensures { result ≡ record { failures = 0; cause = None; saved = []; mode = None; held = None; is_held = false; only_plain = false; in_place = false; aftermath = None } }
    {
        DiskFiles {
            calls: Calls::new(rt),
            failures: 0,
            cause: None,
            mode: None,
            held_name: None,
            hold: None,
            in_the_way: None,
            only_plain: false,
            way: Way::Replace,
            aftermath: None,
        }
    }

    /// From now on loads refuse what is not a plain file, links followed, before they open it: to open a pipe or a
    /// terminal may block.
    pub fn only_plain(&mut self)
        ensures { self.new ≡ record self.old { only_plain = true } }
    {
        self.only_plain = true;
    }

    /// From now on files are saved in place: the file keeps all that is not its bytes, and a missing one is not made.
    pub fn save_in_place(&mut self)
        ensures { self.new ≡ record self.old { in_place = true } }
    {
        self.way = Way::InPlace;
    }

    fn count_failure(&mut self, cause: Cause)
        ensures fails { Fails self.old self.new }
        ensures count { self.old.failures ≤ self.new.failures }
        ensures mode { self.new.mode ≡ self.old.mode }
        ensures aftermath { self.new.aftermath ≡ self.old.aftermath }
    {
        self.failures = self.failures.saturating_add(1);
        self.cause = Some(cause);
    }

    // Returns the error of a load that returns no bytes, and counts the failed call, if there was one.
    fn refuse_load(&mut self, fault: ReadFault) -> LoadFault
        ensures exact { result ≡ load_fault fault }
        ensures counted { CountsLoad self.old fault self.new }
    {
        match fault {
            ReadFault::Missing => LoadFault::Missing,
            ReadFault::TooLarge => LoadFault::TooLarge,
            ReadFault::Disk(DiskFault::NoMemory) => LoadFault::NoMemory,
            ReadFault::Disk(DiskFault::Failed(cause)) => {
                self.count_failure(cause);
                LoadFault::Failed
            }
        }
    }

    // Returns the error of a save that was not made, and counts the failed call, if there was one.
    fn refuse_save(&mut self, fault: DiskFault) -> SaveFault
        ensures exact { result ≡ save_fault fault }
        ensures counted { CountsSave self.old fault self.new }
    {
        match fault {
            DiskFault::NoMemory => SaveFault::NoMemory,
            DiskFault::Failed(cause) => {
                self.count_failure(cause);
                SaveFault::Failed
            }
        }
    }
}

impl<R: System> Files for DiskFiles<'_, R> {
    ghost file = { λ _ _. None };

    ghost is_honest = { λ _. ⊥ };

    ghost failure_count = { λ disk. disk.failures };

    ghost answers = { λ old _ limit answer new. AnswersFromDisk old new limit answer };

    ghost saves = { λ old name bytes answer new. SavesToDisk (left old) name bytes new answer };

    ghost mode = { λ disk. disk.mode };

    ghost held = { λ disk. disk.held };

    ghost is_held = { λ disk. disk.is_held };

    ghost aftermath = { λ disk. disk.aftermath };

    fn node(&self, name: &str) -> Node {
        self.calls.looks().node(name)
    }

    fn hold(&mut self, name: &str)
        ensures { self.new ≡ record self.old { held = Some name.now; is_held = self.new.is_held; aftermath = None } }
    {
        self.release();
        self.aftermath = None;
        let hold = Held::take(&self.calls, name, self.way);
        if let Err(not_held) = &hold {
            self.note_in_the_way(name, not_held.why);
        }
        self.keep(name, hold);
    }

    fn release(&mut self)
        ensures { self.new ≡ left self.old }
    {
        if let Ok(Some(held)) = self.take_hold() {
            held.release(&self.calls);
        }
    }

    fn check_hold(&mut self) -> Result<(), SaveFault> {
        let checked = match &self.hold {
            Some(Ok(held)) => held.check(),
            Some(Err(not_held)) => Err(not_held.why),
            None => Err(DiskFault::Failed(Cause::NoLock)),
        };
        match checked {
            Ok(()) => Ok(()),
            Err(fault) => Err(self.refuse_save(fault)),
        }
    }

    fn load<A: Allocator>(
        &mut self,
        alloc: A,
        name: &str,
        limit: u32,
    ) -> Result<Vec<u8, A>, LoadFault> {
        self.mode = None;
        if self.failures == u64::MAX {
            return Err(LoadFault::Failed);
        }
        match self.read(alloc, name, limit) {
            Ok((found, bytes)) => {
                self.calls.note_loaded(found);
                self.mode = found.permissions();
                Ok(bytes)
            }
            Err(fault) => Err(self.refuse_load(fault)),
        }
    }

    fn save(&mut self, name: &str, bytes: &[u8]) -> Result<(), SaveFault> {
        self.aftermath = None;
        if self.failures == u64::MAX {
            self.release();
            return Err(SaveFault::Failed);
        }
        match self.save_held(name, bytes) {
            Ok(aftermath) => {
                self.aftermath = aftermath;
                Ok(())
            }
            Err(unsaved) => {
                self.note_in_the_way(name, unsaved.why);
                self.aftermath = unsaved.aftermath;
                Err(self.refuse_save(unsaved.why))
            }
        }
    }

    fn failures(&self) -> u64 {
        self.failures
    }

    fn mode(&self) -> Option<u32> {
        self.mode
    }

    fn cause(&self) -> Option<Cause>
        ensures { result ≡ self.now.cause }
    {
        self.cause
    }

    fn in_the_way(&self) -> Option<&str> {
        self.in_the_way.as_ref().map(|path| path.as_str())
    }

    fn aftermath(&self) -> Option<Aftermath> {
        self.aftermath
    }
}
