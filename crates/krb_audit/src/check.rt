//! Checks a keytab for what an administrator should know.

ghost use Rattle.std.specs.Prelude.{◌≡◌, IfOk, map};
ghost use Rattle.krb_audit.specs.CheckUp.{about_entries, checked, counts_at, findings_of, is_empty, is_wrong, uncounted};

use crate::counts::{Counts, counts_of};
use crate::findings::{Marked, check_entries};
use crate::mode::{is_open_file, is_open_to_all};
use krb_findings::{FINDINGS, Finding, FindingSet, WeakEtypes};
use krb_keytab::Keytab;
use krb_walk::Fault;
use krb_wire::NoMemory;
use std::alloc::Allocator;
use std::marker::Model;

/// What a check is asked for.
#[derive(Drop)]
pub struct CheckCriteria<'k, B: Allocator> {
    /// An entry that is not old is aged if it has a time, at or before that second.
    pub aged_by: Option<u32>,
    /// The names that have to be there, as they are printed.
    pub wanted: &'k [Vec<u8, B>],
    /// Names that are not wanted are found.
    pub only: bool,
}

impl<'k, B: Allocator> Model for CheckCriteria<'k, B> {
    ghost use Rattle.std.specs.Prelude.{map};
    ghost use Rattle.std.specs.Vec.{vec_items};
    ghost use Rattle.krb_audit.specs.Findings.{CheckAsked};

    ghost Value = { CheckAsked };

    ghost view = { λ c. record { aged_by = c.aged_by; wanted = map vec_items c.wanted.now; only = c.only } };
}

/// What a check of a keytab found.
#[derive(Drop)]
pub struct CheckUp<'k, A: Allocator> {
    mode: Option<u32>,
    entries: Vec<Marked<'k>, A>,
    is_empty: bool,
    missing: Vec<&'k [u8], A>,
    fault: Option<Fault>,
    counts: Counts,
    weak_etypes: WeakEtypes,
    findings: FindingSet,
}

impl<'k, A: Allocator> Model for CheckUp<'k, A> {
    ghost use Rattle.std.specs.Prelude.{◌≡◌, map};
    ghost use Rattle.krb_audit.specs.CheckUp.{CheckParts, findings_of};

    ghost Value = { CheckParts };

    ghost view = { λ v. record {
      mode = v.mode;
      entries = v.entries.items;
      is_empty = v.is_empty;
      missing = map (λ t. t.now) v.missing.items;
      fault = v.fault;
      counts = v.counts;
      weak_etypes = v.weak_etypes;
    } };

    ghost invariant = { λ v. v.findings ≡ findings_of (view v) };
}

// Returns whether a finding makes the status 1: a mode does if others may read or write the plain file.
fn counts_at(mode: Option<u32>, finding: Finding) -> bool
    ensures { result ≡ counts_at mode finding }
{
    match finding {
        Finding::Mode => is_open_to_all(mode),
        _ => finding.row().counts,
    }
}

// Returns the findings that are allowed, and those that do not make the status 1.
fn with_uncounted(allowed: FindingSet, mode: Option<u32>) -> FindingSet
    ensures { result ≡ uncounted mode allowed }
{
    let mut uncounted = allowed;
    'findings: for finding in &FINDINGS {
        uncounted = uncounted.with_if(!counts_at(mode, *finding), *finding);
    }
    uncounted
}

impl<'k, A: Allocator> CheckUp<'k, A> {
    /// Returns the mode of the keytab's plain file, if it is given.
    pub fn mode(&self) -> Option<u32>
        ensures { result ≡ self.now.mode }
    {
        self.mode
    }

    /// Returns the entries about which, or about whose names, something is found, with that, in file order.
    pub fn entries(&self) -> &[Marked<'k>]
        ensures { result.now ≡ self.now.entries }
    {
        &self.entries
    }

    /// Returns whether the keytab has no entry and no fault.
    pub fn is_empty(&self) -> bool
        ensures { result ≡ self.now.is_empty }
    {
        self.is_empty
    }

    /// Returns the names that are missing, as they are printed.
    pub fn missing(&self) -> &[&'k [u8]]
        ensures { map (λ t. t.now) result.now ≡ self.now.missing }
    {
        &self.missing
    }

    /// Returns the fault of the keytab, if it has one: what is found is then of the entries before it.
    pub fn fault(&self) -> Option<Fault>
        ensures { result ≡ self.now.fault }
    {
        self.fault
    }

    /// Returns how many entries and holes there are.
    pub fn counts(&self) -> Counts
        ensures { result ≡ self.now.counts }
    {
        self.counts
    }

    /// Returns which weak encryption types entries have.
    pub fn weak_etypes(&self) -> WeakEtypes
        ensures { result ≡ self.now.weak_etypes }
    {
        self.weak_etypes
    }

    /// Returns which findings there are.
    pub fn findings(&self) -> FindingSet
        ensures { result ≡ findings_of self.now }
    {
        self.findings
    }

    /// Returns the findings that do not count for the status: those that are allowed, and those that do not make it 1.
    pub fn uncounted(&self, allowed: FindingSet) -> FindingSet
        ensures { result ≡ uncounted self.now.mode allowed }
    {
        with_uncounted(allowed, self.mode)
    }

    /// Returns whether something is wrong: a finding that counts for the status, or a fault.
    pub fn is_wrong(&self, allowed: FindingSet) -> bool
        ensures { result ≡ is_wrong allowed self.now }
    {
        self.findings.without(self.uncounted(allowed)).has_some() || self.fault.is_some()
    }
}

// Returns what is found about some entries.
fn about_entries(entries: &[Marked<'_>]) -> FindingSet
    ensures { result ≡ about_entries entries.now }
{
    let mut findings = FindingSet::none();
    'entries: for (_, marks) in entries {
        findings = findings.and(marks.findings);
    }
    findings
}

/// Checks a keytab and, if it is given, the `mode` of its plain file. Takes time n log n in the bytes of the keytab and of
/// the wanted names.
pub fn check_up<'k, A: Allocator + Copy, B: Allocator, C: Allocator>(
    alloc: A,
    mode: Option<u32>,
    asked: &CheckCriteria<'k, B>,
    keytab: &'k Keytab<C>,
) -> Result<CheckUp<'k, A>, NoMemory>
    ensures { IfOk result (λ found. found ≡ checked mode asked.now keytab.now.state) }
{
    let pass = check_entries(alloc, asked, keytab)?;
    let fault = keytab.fault();
    let is_empty = pass.count == 0 && fault.is_none();
    let findings = about_entries(&pass.entries)
        .with_if(is_open_file(mode), Finding::Mode)
        .with_if(is_empty, Finding::Empty)
        .with_if(!pass.missing.is_empty(), Finding::Missing);
    Ok(CheckUp {
        mode,
        entries: pass.entries,
        is_empty,
        missing: pass.missing,
        fault,
        counts: counts_of(pass.count, keytab),
        weak_etypes: pass.weak_etypes,
        findings,
    })
}
