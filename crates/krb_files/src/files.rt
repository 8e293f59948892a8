//! Files by name.

ghost use Rattle.std.specs.Prelude.{◌≡◌, ◌≤◌, ◌⊎◌, ℕ, ◌-◌, ◌^◌, Bool, true, List, Option, None, Some, Result, Ok, Err, OnOk, OnErr, IfOk, IfErr, IsErrOf};
ghost use Rattle.krb_files.specs.Files.{FileMap, SameFiles, SetsFile, CountsFailure, answer_of, loaded, node_of};
ghost use Rattle.krb_files.specs.Phrases.{load_number, save_number, load_phrase, save_phrase};

use crate::aftermath::Aftermath;
use crate::cause::Cause;
use crate::node::Node;
use std::alloc::Allocator;
use std::fmt;
use thiserror::Error;

/// Why a file was not loaded.
#[derive(Clone, Copy, Debug, PartialEq, Eq, Error)]
pub enum LoadFault {
    Missing = 1,
    TooLarge = 2,
    Failed = 3,
    NoMemory = 4,
}

impl LoadFault {
    /// Returns its number, from 1 on in the order above.
    pub fn number(self) -> u32
        ensures { result ≡ load_number self }
    {
        self as u32
    }

    /// Returns its phrase.
    pub fn phrase(self) -> &'static str
        ensures { result.now ≡ load_phrase self }
    {
        match self {
            LoadFault::Missing => "no such file",
            LoadFault::TooLarge => "file too large",
            LoadFault::Failed => "cannot read",
            LoadFault::NoMemory => "out of memory",
        }
    }
}

impl fmt::Display for LoadFault {
    ghost output = { λ fault. Some (load_phrase fault) };

    fn fmt<W: fmt::Write>(&self, f: &mut fmt::Formatter<W>) -> fmt::Result {
        f.write_str(self.phrase())
    }
}

/// Why a file was not saved.
#[derive(Clone, Copy, Debug, PartialEq, Eq, Error)]
pub enum SaveFault {
    Failed = 1,
    NoMemory = 2,
}

impl SaveFault {
    /// Returns its number, from 1 on in the order above.
    pub fn number(self) -> u32
        ensures { result ≡ save_number self }
    {
        self as u32
    }

    /// Returns its phrase.
    pub fn phrase(self) -> &'static str
        ensures { result.now ≡ save_phrase self }
    {
        match self {
            SaveFault::Failed => "cannot write",
            SaveFault::NoMemory => "out of memory",
        }
    }
}

impl fmt::Display for SaveFault {
    ghost output = { λ fault. Some (save_phrase fault) };

    fn fmt<W: fmt::Write>(&self, f: &mut fmt::Formatter<W>) -> fmt::Result {
        f.write_str(self.phrase())
    }
}

/// Files by name, loaded and saved as a whole. The clauses about their bytes hold if the files are honest.
pub trait Files {
    ghost use Rattle.krb_files.specs.declared.aftermath.Aftermath.{Aftermath};
    ghost use Rattle.krb_files.specs.declared.files.LoadFault.{LoadFault};
    ghost use Rattle.krb_files.specs.declared.files.SaveFault.{SaveFault};
    ghost use Rattle.krb_files.specs.declared.node.Node.TheVariants as Node;

    /// The bytes of the file of each name.
    ghost file: { Self → FileMap };

    /// Whether loads return what is there, and saves write the bytes that they are passed.
    ghost is_honest: { Self → Type 0 };

    /// The number of failed calls, up to the greatest u64.
    ghost failure_count: { Self → ℕ };

    /// What a load of that name and limit may return, and the files after it. Every result of a load, honest or not,
    /// is one of these.
    ghost answers: { Self → List ℕ → ℕ → Result (List ℕ) LoadFault → Self → Type 0 };

    /// What a save of these bytes under that name may return, and the files after it, honest or not.
    ghost saves: { Self → List ℕ → List ℕ → Result (Unit {0}) SaveFault → Self → Type 0 };

    /// The permission bits of the file loaded last, if it is a plain file.
    ghost mode: { Self → Option ℕ };

    /// The name of the file that is to be held, if there is one: `hold` was called with it last.
    ghost held: { Self → Option (List ℕ) };

    /// Whether that file could be held. Otherwise its save fails.
    ghost is_held: { Self → Bool };

    /// What the last save left behind, beside what it returned.
    ghost aftermath: { Self → Option Aftermath };

    /// Returns what lies under that name, links followed. Opens nothing.
    fn node(&self, name: &str) -> Node
        ensures { is_honest self.now → (result ≡ node_of (file self.now name.now)) ⊎ (result ≡ Node.Unknown) };

    /// Keeps other programs from changing the file of that name until it is saved or released. If it cannot be held, or
    /// another program changes it all the same, the save fails.
    fn hold(&mut self, name: &str)
        ensures held { held self.new ≡ Some name.now }
        ensures honest { is_honest self.old → is_honest self.new }
        ensures same { SameFiles (file self.old) (file self.new) }
        ensures count { failure_count self.new ≡ failure_count self.old }
        ensures mode { mode self.new ≡ mode self.old };

    /// Releases the held file, if there is one, without saving it.
    fn release(&mut self)
        ensures held { held self.new ≡ None }
        ensures honest { is_honest self.old → is_honest self.new }
        ensures same { SameFiles (file self.old) (file self.new) }
        ensures count { failure_count self.new ≡ failure_count self.old }
        ensures mode { mode self.new ≡ mode self.old };

    /// Fails like the save to come if the file that is to be held could not be held.
    fn check_hold(&mut self) -> Result<(), SaveFault>
        ensures had { OnOk result (is_held self.old ≡ true) }
        ensures held { held self.new ≡ held self.old }
        ensures honest { is_honest self.old → is_honest self.new }
        ensures same { SameFiles (file self.old) (file self.new) }
        ensures mode { mode self.new ≡ mode self.old }
        ensures failed { IsErrOf result SaveFault.Failed
            → CountsFailure (failure_count self.old) (failure_count self.new) }
        ensures count { failure_count self.old ≤ failure_count self.new };

    /// Returns the bytes of a file, if they are at most `limit`.
    fn load<A: Allocator>(
        &mut self,
        alloc: A,
        name: &str,
        limit: u32,
    ) -> Result<Vec<u8, A>, LoadFault>
        ensures held { held self.new ≡ held self.old }
        ensures honest { is_honest self.old → is_honest self.new }
        ensures same { is_honest self.old → SameFiles (file self.old) (file self.new) }
        ensures answered { answers self.old name.now limit (answer_of result) self.new }

        // If no call and no allocation failed, the result is that of the file there.
        ensures ok { is_honest self.old
            → IfOk result (λ bytes. loaded (file self.old name.now) limit ≡ Ok bytes.items) }
        ensures err { is_honest self.old → IfErr result (λ fault. (fault ≡ LoadFault.Failed)
            ⊎ (fault ≡ LoadFault.NoMemory) ⊎ (loaded (file self.old name.now) limit ≡ Err fault)) }

        // Each `Failed` is counted; at the greatest count every call fails.
        ensures failed { IsErrOf result LoadFault.Failed
            → CountsFailure (failure_count self.old) (failure_count self.new) }
        ensures count { failure_count self.old ≤ failure_count self.new }
        ensures spent { failure_count self.old ≡ 2 ^ 64 - 1 → IsErrOf result LoadFault.Failed };

    /// Replaces or creates the file of that name, with these bytes. Ends the hold, even if the save fails.
    fn save(&mut self, name: &str, bytes: &[u8]) -> Result<(), SaveFault>
        ensures held { held self.new ≡ None }
        ensures honest { is_honest self.old → is_honest self.new }
        ensures ok { is_honest self.old
            → OnOk result (SetsFile (file self.old) name.now bytes.now (file self.new)) }
        ensures err { is_honest self.old → OnErr result (SameFiles (file self.old) (file self.new)) }
        ensures saved { saves self.old name.now bytes.now result self.new }

        // As for `load`.
        ensures failed { IsErrOf result SaveFault.Failed
            → CountsFailure (failure_count self.old) (failure_count self.new) }
        ensures count { failure_count self.old ≤ failure_count self.new }
        ensures spent { failure_count self.old ≡ 2 ^ 64 - 1 → IsErrOf result SaveFault.Failed };

    /// Returns the number of failed calls, up to the greatest u64.
    fn failures(&self) -> u64
        ensures { result ≡ failure_count self.now };

    /// Returns the twelve permission bits of the file loaded last, if it is a plain file.
    fn mode(&self) -> Option<u32>
        ensures { result ≡ mode self.now };

    /// Returns the cause of the last call that returned `Failed`, if known.
    fn cause(&self) -> Option<Cause> {
        None
    }

    /// Returns the path at which something that is not ours keeps the last save from making its new file, if known.
    fn in_the_way(&self) -> Option<&str> {
        None
    }

    /// Returns what the last save left behind, if that is to be reported. A save of honest files leaves nothing.
    fn aftermath(&self) -> Option<Aftermath>
        ensures left { result ≡ aftermath self.now }
        ensures honest { is_honest self.now → aftermath self.now ≡ None };
}
