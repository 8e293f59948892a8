//! The lines that report what a check of a keytab finds.

ghost use Rattle.std.specs.Prelude.{◌≡◌, ◌++◌, OnOk, map};
ghost use Rattle.std.specs.List.{flat_map};
ghost use Rattle.krb_audit.specs.Report.{count_line, empty_line, finding_line, finding_lines, kvno_rest, labelled_fault, missing_line, missing_lines, mode_line, name_line, placed_rest, report};
ghost use Rattle.krb_findings.specs.Table.{row_of};

use crate::check::CheckUp;
use crate::counts::Counts;
use crate::findings::Marked;
use crate::mode::{append_mode_digits, is_open};
use krb_findings::{ABOUT_ENTRIES, Finding, FindingSet};
use krb_keytab::EntryView;
use krb_keytab_text::append_placed;
use krb_text::{append, append_byte, append_fault_line, append_labelled};
use krb_walk::Fault;
use krb_wire::{NoMemory, write_name};
use std::alloc::Allocator;

fn append_word<A: Allocator>(
    label: &[u8],
    finding: Finding,
    out: &mut Vec<u8, A>,
) -> Result<(), NoMemory>
    ensures { OnOk result (out.new.items ≡ out.old.items ++ (label.now ++ (row_of finding).word)) }
{
    append(label, out)?;
    append(finding.row().word.as_bytes(), out)
}

fn append_mode<A: Allocator>(
    label: &[u8],
    left_out: FindingSet,
    mode: Option<u32>,
    out: &mut Vec<u8, A>,
) -> Result<(), NoMemory>
    ensures { OnOk result (out.new.items ≡ out.old.items ++ mode_line label.now left_out mode) }
{
    match mode {
        Some(mode) if is_open(mode) && !left_out.has(Finding::Mode) => {
            append_word(label, Finding::Mode, out)?;
            append_byte(b' ', out)?;
            append_mode_digits(mode, out)?;
            append_byte(b'\n', out)
        }
        _ => Ok(()),
    }
}

fn append_rest<A: Allocator>(
    first: Option<u32>,
    place: u32,
    entry: &EntryView<'_>,
    out: &mut Vec<u8, A>,
) -> Result<(), NoMemory>
    ensures { OnOk result (out.new.items ≡ out.old.items ++ placed_rest first (place, entry.now)) }
{
    match first {
        None => append_placed(b" ", place, entry, out),
        Some(first) => {
            append_labelled(b" ", place, out)?;
            append_placed(b" ", first, entry, out)
        }
    }
}

// Appends the line of a finding, if it is found about the entry and not left out.
fn append_finding<A: Allocator>(
    label: &[u8],
    left_out: FindingSet,
    marked: &Marked<'_>,
    finding: Finding,
    out: &mut Vec<u8, A>,
) -> Result<(), NoMemory>
    ensures { OnOk result (out.new.items ≡ out.old.items ++ finding_line label.now left_out marked.now finding) }
{
    let ((place, entry), marks) = marked;
    if !marks.findings.has(finding) || left_out.has(finding) {
        return Ok(());
    }
    append_word(label, finding, out)?;
    append_rest(marks.first_for(finding), *place, entry, out)
}

fn append_findings<A: Allocator>(
    label: &[u8],
    left_out: FindingSet,
    marked: &Marked<'_>,
    out: &mut Vec<u8, A>,
) -> Result<(), NoMemory>
    ensures { OnOk result (out.new.items ≡ out.old.items ++ finding_lines label.now left_out marked.now) }
{
    'findings: for finding in &ABOUT_ENTRIES {
        append_finding(label, left_out, marked, *finding, out)?;
    }
    Ok(())
}

fn append_entries<A: Allocator>(
    label: &[u8],
    left_out: FindingSet,
    entries: &[Marked<'_>],
    out: &mut Vec<u8, A>,
) -> Result<(), NoMemory>
    ensures { OnOk result (out.new.items ≡ out.old.items ++ flat_map (finding_lines label.now left_out) entries.now) }
{
    'entries: for marked in entries {
        append_findings(label, left_out, marked, out)?;
    }
    Ok(())
}

fn append_kvno<A: Allocator>(kvno: Option<u32>, out: &mut Vec<u8, A>) -> Result<(), NoMemory>
    ensures { OnOk result (out.new.items ≡ out.old.items ++ kvno_rest kvno) }
{
    match kvno {
        Some(kvno) => append_labelled(b" kvno ", kvno, out),
        None => Ok(()),
    }
}

// Appends the line of a finding, if it is found about the name of the entry and not left out.
fn append_name_finding<A: Allocator>(
    label: &[u8],
    left_out: FindingSet,
    finding: Finding,
    marked: &Marked<'_>,
    out: &mut Vec<u8, A>,
) -> Result<(), NoMemory>
    ensures { OnOk result (out.new.items ≡ out.old.items ++ name_line label.now left_out finding marked.now) }
{
    let ((_, entry), marks) = marked;
    if !marks.findings.has(finding) || left_out.has(finding) {
        return Ok(());
    }
    append_word(label, finding, out)?;
    append_kvno(marks.newest_for(finding), out)?;
    append_byte(b' ', out)?;
    write_name(entry.principal(), out)?;
    append_byte(b'\n', out)
}

fn append_names<A: Allocator>(
    label: &[u8],
    left_out: FindingSet,
    finding: Finding,
    entries: &[Marked<'_>],
    out: &mut Vec<u8, A>,
) -> Result<(), NoMemory>
    ensures { OnOk result (out.new.items
        ≡ out.old.items ++ flat_map (name_line label.now left_out finding) entries.now) }
{
    'entries: for marked in entries {
        append_name_finding(label, left_out, finding, marked, out)?;
    }
    Ok(())
}

fn append_empty<A: Allocator>(
    label: &[u8],
    left_out: FindingSet,
    is_empty: bool,
    out: &mut Vec<u8, A>,
) -> Result<(), NoMemory>
    ensures { OnOk result (out.new.items ≡ out.old.items ++ empty_line label.now left_out is_empty) }
{
    if !is_empty || left_out.has(Finding::Empty) {
        return Ok(());
    }
    append_word(label, Finding::Empty, out)?;
    append_byte(b'\n', out)
}

fn append_missing_name<A: Allocator>(
    label: &[u8],
    name: &[u8],
    out: &mut Vec<u8, A>,
) -> Result<(), NoMemory>
    ensures { OnOk result (out.new.items ≡ out.old.items ++ missing_line label.now name.now) }
{
    append_word(label, Finding::Missing, out)?;
    append_byte(b' ', out)?;
    append(name, out)?;
    append_byte(b'\n', out)
}

fn append_missing<A: Allocator>(
    label: &[u8],
    left_out: FindingSet,
    names: &[&[u8]],
    out: &mut Vec<u8, A>,
) -> Result<(), NoMemory>
    ensures { OnOk result (out.new.items
        ≡ out.old.items ++ missing_lines label.now left_out (map (λ t. t.now) names.now)) }
{
    if left_out.has(Finding::Missing) {
        return Ok(());
    }
    'names: for name in names {
        append_missing_name(label, name, out)?;
    }
    Ok(())
}

fn append_fault<A: Allocator>(
    label: &[u8],
    fault: Option<Fault>,
    out: &mut Vec<u8, A>,
) -> Result<(), NoMemory>
    ensures { OnOk result (out.new.items ≡ out.old.items ++ labelled_fault label.now fault) }
{
    if fault.is_none() {
        return Ok(());
    }
    append(label, out)?;
    append_fault_line(fault, out)
}

fn append_counts<A: Allocator>(
    label: &[u8],
    counts: Counts,
    out: &mut Vec<u8, A>,
) -> Result<(), NoMemory>
    ensures { OnOk result (out.new.items ≡ out.old.items ++ count_line label.now counts) }
{
    append(label, out)?;
    append_labelled(b"entries ", counts.entries, out)?;
    append_labelled(b" free ", counts.free, out)?;
    append_labelled(b" holes ", counts.holes, out)?;
    append_byte(b'\n', out)
}

/// Appends a line for each finding that is not left out, one for the fault if there is one, and one that counts entries
/// and holes. Each line begins with the label.
pub fn append_report<A: Allocator, B: Allocator>(
    label: &[u8],
    left_out: FindingSet,
    found: &CheckUp<'_, B>,
    out: &mut Vec<u8, A>,
) -> Result<(), NoMemory>
    ensures { OnOk result (out.new.items ≡ out.old.items ++ report label.now left_out found.now) }
{
    append_mode(label, left_out, found.mode(), out)?;
    append_entries(label, left_out, found.entries(), out)?;
    append_names(label, left_out, Finding::Nostrong, found.entries(), out)?;
    append_empty(label, left_out, found.is_empty(), out)?;
    append_missing(label, left_out, found.missing(), out)?;
    append_names(label, left_out, Finding::Unwanted, found.entries(), out)?;
    append_fault(label, found.fault(), out)?;
    append_counts(label, found.counts(), out)
}
