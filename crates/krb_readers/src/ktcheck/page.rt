//! What ktcheck shows of a file.

ghost use Rattle.std.specs.Prelude.{◌≡◌, ◌++◌, IfOk, OnOk, false};
ghost use Rattle.krb_driver.specs.Composing.{output_page};
ghost use Rattle.krb_readers.specs.Ktcheck.{asked, check_page, found, found_verdict, is_silent, left_out, lines_of, page_of};

use crate::ktcheck::words::CheckOptions;
use krb_audit::{CheckCriteria, CheckUp, append_report, check_up};
use krb_driver::{FileName, Findings, Output, RunError, Show, Verdict, label_of};
use krb_files::Watched;
use krb_findings::{Finding, FindingSet};
use krb_json::check_json;
use krb_keytab::Keytab;
use krb_wire::NoMemory;
use std::alloc::Allocator;
use std::io::Write;

/// A keytab that is shown as JSON.
#[derive(Drop)]
pub struct CheckObject<'f, A: Allocator, B: Allocator> {
    pub options: &'f CheckOptions<B>,
    /// The second by which an entry is aged.
    pub aged_by: Option<u32>,
    /// The findings that were explained before.
    pub explained: FindingSet,
    pub mode: Option<u32>,
    pub keytab: Keytab<A>,
}

impl<A: Allocator, B: Allocator> CheckObject<'_, A, B> {
    fn asked(&self) -> CheckCriteria<'_, B>
        ensures { result ≡ asked self.now.options.now self.now.aged_by }
    {
        let options = self.options;
        CheckCriteria {
            aged_by: self.aged_by,
            wanted: &options.wanted,
            only: options.only,
        }
    }
}

// Returns the findings that are left out: with `-q` those that do not count for the status.
fn left_out<A: Allocator, B: Allocator>(
    options: &CheckOptions<B>,
    found: &CheckUp<'_, A>,
) -> FindingSet
    ensures { result ≡ left_out options.now found.now }
{
    if options.quiet {
        found.uncounted(options.allowed)
    } else {
        FindingSet::none()
    }
}

// Returns what is found, and whether something is wrong.
fn verdict_of<A: Allocator, B: Allocator>(
    options: &CheckOptions<B>,
    explained: FindingSet,
    found: &CheckUp<'_, A>,
) -> Verdict
    ensures { result ≡ found_verdict options.now explained found.now }
{
    Verdict::Found(Findings {
        words: found
            .findings()
            .without(left_out(options, found).and(explained)),
        weak_etypes: found.weak_etypes(),
        lacks_strong: found.findings().has(Finding::Nostrong),
        fault: found.fault(),
        is_wrong: found.is_wrong(options.allowed),
        v1_order: options.v1_order,
    })
}

// Returns whether nothing is printed of a file: with `-q`, if nothing is wrong.
fn is_silent<A: Allocator, B: Allocator>(options: &CheckOptions<B>, found: &CheckUp<'_, A>) -> bool
    ensures { result ≡ is_silent options.now found.now }
{
    options.quiet && !found.is_wrong(options.allowed)
}

// Appends the lines of a file, but with `-q` none if nothing is wrong.
fn append_lines<A: Allocator, B: Allocator, C: Allocator>(
    options: &CheckOptions<C>,
    label: &[u8],
    found: &CheckUp<'_, B>,
    out: &mut Vec<u8, A>,
) -> Result<(), NoMemory>
    ensures { OnOk result (out.new.items ≡ out.old.items ++ lines_of options.now label.now found.now) }
{
    if is_silent(options, found) {
        return Ok(());
    }
    append_report(label, left_out(options, found), found, out)
}

/// Checks a keytab in a plain file with that mode, and returns its lines.
pub fn check_lines<A: Allocator + Copy, B: Allocator>(
    alloc: A,
    object: &CheckObject<'_, A, B>,
    are_several: bool,
    file: FileName<'_>,
) -> Result<Output<A>, NoMemory>
    ensures { IfOk result (λ output. output_page output ≡ page_of (record object.now.options.now { json = false }) are_several object.now.explained
        file.entry.name.now (found object.now.options.now object.now.aged_by object.now.mode object.now.keytab.state)) }
{
    let options = object.options;
    let label = label_of(alloc, options.with_filename || are_several, file)?;
    let asked = object.asked();
    let found = check_up(alloc, object.mode, &asked, &object.keytab)?;
    let mut text = Vec::new(alloc);
    append_lines(options, &label, &found, &mut text)?;
    Ok(Output {
        verdict: verdict_of(options, object.explained, &found),
        text,
    })
}

impl<A: Allocator + Copy, B: Allocator> Show<A> for CheckObject<'_, A, B> {
    ghost page = { check_page };

    /// Checks the keytab, and prints it as JSON, but with `-q` nothing if nothing is wrong.
    fn show<W: Write>(
        &self,
        alloc: A,
        file: &str,
        out: &mut Watched<W>,
    ) -> Result<Verdict, RunError> {
        let options = self.options;
        let asked = self.asked();
        let found = check_up(alloc, self.mode, &asked, &self.keytab)?;
        let verdict = verdict_of(options, self.explained, &found);
        if is_silent(options, &found) {
            return Ok(verdict);
        }
        check_json(alloc, file, &found, verdict.status(), out)?;
        Ok(verdict)
    }
}
