//! Files in memory.

ghost use Rattle.std.specs.Prelude.{◌≡◌, ◌⊎◌, ◌↔◌, true, None, Some, Ok, IfOk, IfErr, IsErrOf, IsTrue, OnOk, OnErr, option_map, position, string_bytes};
ghost use Rattle.std.specs.Str.{bytes_eq};
ghost use Rattle.krb_files.specs.Files.{SetsFile, loaded, node_of};
ghost use Rattle.krb_files.specs.Log.{last_name};
ghost use Rattle.krb_files.specs.MemFiles.{Memory, pairs_of, AnswersOf, SavesOf, FaultOf, file_in, with_file, failing_next, after_call, left};

use crate::aftermath::Aftermath;
use crate::files::{Files, LoadFault, SaveFault};
use crate::log::Log;
use crate::node::Node;
use std::alloc::{AllocError, Allocator};
use std::marker::Model;

/// Files in memory, for tests. A later load or save can be made to fail.
#[derive(Drop)]
pub struct MemFiles<A: Allocator> {
    alloc: A,
    files: Vec<(String<A>, Vec<u8, A>), A>,
    failing: u64,
    failures: u64,
    mode: Option<u32>,
    held: Option<Log>,
}

impl<A: Allocator> Model for MemFiles<A> {
    ghost Value = { Memory };

    ghost view = { λ m. record {
      files = pairs_of m.files.items;
      failing = m.failing;
      failures = m.failures;
      mode = m.mode;
      held = last_name m.held;
    } };
}

impl<A: Allocator> MemFiles<A> {
    /// Returns these files. Of two with the same name the first counts.
    pub fn of(alloc: A, files: Vec<(String<A>, Vec<u8, A>), A>) -> MemFiles<A>
        ensures files { result.files ≡ pairs_of files.items }
        ensures failing { result.failing ≡ 0 }
        ensures failures { result.failures ≡ 0 }
        ensures mode { result.mode ≡ None }
        ensures held { result.held ≡ None }
    {
        MemFiles {
            alloc,
            files,
            failing: 0,
            failures: 0,
            mode: None,
            held: None,
        }
    }

    /// Returns the bytes of the file of that name, or `None` if there is none.
    pub fn get(&self, name: &str) -> Option<&[u8]>
        ensures { option_map (λ b. b.now) result ≡ file_in self.now.files name.now }
    {
        let place = place_of(&self.files, name)?;
        Some(&self.files[place].1)
    }

    /// Makes the n-th load or save from now fail, counted from 1, and no other; none if `n` is 0.
    pub fn fail_at(&mut self, n: u64)
        ensures { self.new ≡ record self.old { failing = n } }
    {
        self.failing = n;
    }

    /// Sets the mode of every file.
    pub fn set_mode(&mut self, mode: Option<u32>)
        ensures { self.new ≡ record self.old { mode = mode } }
    {
        self.mode = mode;
    }

    // Counts a call and returns whether it fails.
    fn fails(&mut self) -> bool
        ensures answer { result ≡ failing_next self.old }
        ensures state { self.new ≡ after_call self.old }
    {
        if self.failures == u64::MAX {
            return true;
        }
        if self.failing == 1 {
            self.failures += 1;
        }
        let fails = self.failing == 1;
        self.failing = self.failing.saturating_sub(1);
        fails
    }
}

// Copies the bytes, if they are at most `limit`.
fn copy_within<A: Allocator>(
    alloc: A,
    bytes: Option<&[u8]>,
    limit: u32,
) -> Result<Vec<u8, A>, LoadFault>
    ensures ok { IfOk result
        (λ copy. loaded (option_map (λ b. b.now) bytes.entry) limit ≡ Ok copy.items) }
    ensures err { IfErr result
        (FaultOf (loaded (option_map (λ b. b.now) bytes.entry) limit)) }
{
    let Some(bytes) = bytes else {
        return Err(LoadFault::Missing);
    };
    if bytes.len() > limit as usize {
        return Err(LoadFault::TooLarge);
    }
    Vec::from_slice(alloc, bytes).map_err(|_| LoadFault::NoMemory)
}

// Returns the position of the first file of that name.
fn place_of<A: Allocator>(files: &[(String<A>, Vec<u8, A>)], name: &str) -> Option<usize>
    ensures { result
        ≡ position (λ file. bytes_eq (string_bytes file.0) name.now) files.entry.now }
{
    files.iter().position(|file| file.0.as_str() == name)
}

// Sets the bytes of the first file of that name, or appends a new file.
fn set_file<A: Allocator + Copy>(
    alloc: A,
    files: &mut Vec<(String<A>, Vec<u8, A>), A>,
    name: &str,
    bytes: &[u8],
) -> Result<(), AllocError>
    ensures ok { OnOk result (pairs_of files.new.items
        ≡ with_file (pairs_of files.old.items) name.now bytes.now) }
    ensures sets { OnOk result (SetsFile (file_in (pairs_of files.old.items))
        name.now bytes.now (file_in (pairs_of files.new.items))) }
    ensures err { OnErr result (pairs_of files.new.items ≡ pairs_of files.old.items) }
{
    let copy = Vec::from_slice(alloc, bytes)?;
    match place_of(files, name) {
        Some(place) => files[place].1 = copy,
        None => files.push((String::from_str(alloc, name)?, copy))?,
    }
    Ok(())
}

impl<A: Allocator + Copy> Files for MemFiles<A> {
    ghost file = { λ m. file_in m.files };

    ghost is_honest = { λ _. Unit {0} };

    ghost failure_count = { λ m. m.failures };

    ghost answers = { λ m name limit answer after.
        AnswersOf (failing_next m) (loaded (file_in m.files name) limit) answer
        × (after ≡ after_call m) };

    ghost saves = { λ m name bytes answer after.
        SavesOf (failing_next m) (after_call (left m)) name bytes answer after };

    ghost mode = { λ m. m.mode };

    ghost held = { λ m. m.held };

    ghost is_held = { λ _. true };

    ghost aftermath = { λ _. None };

    fn node(&self, name: &str) -> Node
        ensures { result ≡ node_of (file_in self.now.files name.now) }
    {
        match self.get(name) {
            Some(_) => Node::PlainFile,
            None => Node::Nothing,
        }
    }

    fn hold(&mut self, name: &str)
        ensures { self.new ≡ record self.old { held = Some name.now } }
    {
        self.held = Some(Log::with(&None, name.as_bytes(), &[]));
    }

    fn release(&mut self)
        ensures { self.new ≡ left self.old }
    {
        self.held = None;
    }

    fn check_hold(&mut self) -> Result<(), SaveFault>
        ensures same { self.new ≡ self.old }
        ensures ok { result ≡ Ok tt }
    {
        Ok(())
    }

    fn load<B: Allocator>(
        &mut self,
        alloc: B,
        name: &str,
        limit: u32,
    ) -> Result<Vec<u8, B>, LoadFault>
        ensures state { self.new ≡ after_call self.old }
        ensures failed { IsErrOf result LoadFault.Failed ↔ IsTrue (failing_next self.old) }
        ensures ok { IfOk result
            (λ bytes. loaded (file_in self.old.files name.now) limit ≡ Ok bytes.items) }
        ensures err { IfErr result (λ fault. (fault ≡ LoadFault.Failed)
            ⊎ FaultOf (loaded (file_in self.old.files name.now) limit) fault) }
    {
        if self.fails() {
            return Err(LoadFault::Failed);
        }
        copy_within(alloc, self.get(name), limit)
    }

    fn save(&mut self, name: &str, bytes: &[u8]) -> Result<(), SaveFault>
        ensures state { SavesOf (failing_next self.old) (after_call (left self.old))
            name.now bytes.now result self.new }
        ensures failed { IsErrOf result SaveFault.Failed ↔ IsTrue (failing_next self.old) }
        ensures ok { OnOk result
            (SetsFile (file_in self.old.files) name.now bytes.now (file_in self.new.files)) }
        ensures err { OnErr result (self.new.files ≡ self.old.files) }
    {
        self.held = None;
        if self.fails() {
            return Err(SaveFault::Failed);
        }
        match set_file(self.alloc, &mut self.files, name, bytes) {
            Ok(()) => Ok(()),
            Err(_) => Err(SaveFault::NoMemory),
        }
    }

    fn failures(&self) -> u64 {
        self.failures
    }

    fn mode(&self) -> Option<u32> {
        self.mode
    }

    fn aftermath(&self) -> Option<Aftermath> {
        None
    }
}
