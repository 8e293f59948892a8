//! A check of a keytab as JSON.

ghost use Rattle.std.specs.Prelude.{◌≡◌, [], ◌∷◌, Some, OnOk, IsFalse, codes};
ghost use Rattle.std.specs.List.{flat_map};
ghost use Rattle.json.specs.Json.{document};
ghost use Rattle.krb_text.specs.Gathered.{Prints};
ghost use Rattle.krb_json.specs.Check.{check_json_text, check_members, check_value, entry_finding, entry_findings, file_findings, finding_values, missing_value, name_finding};
ghost use Rattle.krb_json.specs.Escaped.{json_text};
ghost use Rattle.krb_json.specs.Pieces.{Adds, Begins, head_tokens};

use crate::elements::Elements;
use krb_audit::{CheckUp, Marked, is_open_file};
use krb_files::{OutFault, Watched};
use krb_findings::{ABOUT_ENTRIES, Finding};
use krb_wire::NoMemory;
use std::alloc::Allocator;
use std::io::Write;

// Gathers the text before the first finding.
#[tactic(auto, using(crate::proofs::Arrays::head_written))]
fn begin<A: Allocator + Copy, B: Allocator>(
    file: &str,
    found: &CheckUp<'_, B>,
    elements: &mut Elements<A>,
) -> Result<(), NoMemory>
    requires { elements.old.piece ≡ [] }
    ensures { OnOk result (Begins elements.old.gathered.items elements.new
        (head_tokens (check_members file.now found.now.mode found.now.counts) (codes "findings"))) }
{
    elements
        .piece
        .begin_check(file, found.mode(), found.counts())?;
    elements.begin_array("findings")?;
    Ok(())
}

// Sends a finding about the file, if it holds.
fn send_if<A: Allocator + Copy, W: Write>(
    holds: bool,
    finding: Finding,
    elements: &mut Elements<A>,
    out: &mut Watched<W>,
) -> Result<(), OutFault>
    requires well { IsFalse out.old.failed }
    requires empty { elements.old.piece ≡ [] }
    ensures { Adds out.old out.new elements.old elements.new result (file_findings holds finding) }
{
    if !holds {
        return Ok(());
    }
    elements.piece.file_finding(finding)?;
    elements.send(out)
}

// Sends a finding about an entry, if it is one of those.
fn send_finding<A: Allocator + Copy, W: Write>(
    finding: Finding,
    marked: &Marked<'_>,
    elements: &mut Elements<A>,
    out: &mut Watched<W>,
) -> Result<(), OutFault>
    requires well { IsFalse out.old.failed }
    requires empty { elements.old.piece ≡ [] }
    ensures { Adds out.old out.new elements.old elements.new result (entry_finding marked.now finding) }
{
    let ((place, entry), marks) = marked;
    if !marks.findings.has(finding) {
        return Ok(());
    }
    let first = marks.first_for(finding);
    elements.piece.entry_finding(finding, first, *place, entry)?;
    elements.send(out)
}

// Sends what is found about an entry.
fn send_marked<A: Allocator + Copy, W: Write>(
    marked: &Marked<'_>,
    elements: &mut Elements<A>,
    out: &mut Watched<W>,
) -> Result<(), OutFault>
    requires well { IsFalse out.old.failed }
    requires empty { elements.old.piece ≡ [] }
    ensures { Adds out.old out.new elements.old elements.new result (entry_findings marked.now) }
{
    'findings: for finding in &ABOUT_ENTRIES {
        send_finding(*finding, marked, elements, out)?;
    }
    Ok(())
}

// Sends what is found about entries.
fn send_entries<A: Allocator + Copy, W: Write>(
    entries: &[Marked<'_>],
    elements: &mut Elements<A>,
    out: &mut Watched<W>,
) -> Result<(), OutFault>
    requires well { IsFalse out.old.failed }
    requires empty { elements.old.piece ≡ [] }
    ensures { Adds out.old out.new elements.old elements.new result (flat_map entry_findings entries.now) }
{
    'entries: for marked in entries {
        send_marked(marked, elements, out)?;
    }
    Ok(())
}

// Sends a finding about the name of an entry, if it is one of those.
fn send_name_finding<A: Allocator + Copy, W: Write>(
    finding: Finding,
    marked: &Marked<'_>,
    elements: &mut Elements<A>,
    out: &mut Watched<W>,
) -> Result<(), OutFault>
    requires well { IsFalse out.old.failed }
    requires empty { elements.old.piece ≡ [] }
    ensures { Adds out.old out.new elements.old elements.new result (name_finding finding marked.now) }
{
    let ((_, entry), marks) = marked;
    if !marks.findings.has(finding) {
        return Ok(());
    }
    let kvno = marks.newest_for(finding);
    elements
        .piece
        .name_finding(finding, kvno, entry.principal())?;
    elements.send(out)
}

// Sends what is found about the names of entries, of one finding.
fn send_names<A: Allocator + Copy, W: Write>(
    finding: Finding,
    entries: &[Marked<'_>],
    elements: &mut Elements<A>,
    out: &mut Watched<W>,
) -> Result<(), OutFault>
    requires well { IsFalse out.old.failed }
    requires empty { elements.old.piece ≡ [] }
    ensures { Adds out.old out.new elements.old elements.new result (flat_map (name_finding finding) entries.now) }
{
    'entries: for marked in entries {
        send_name_finding(finding, marked, elements, out)?;
    }
    Ok(())
}

// Sends a name that is missing.
fn send_name<A: Allocator + Copy, W: Write>(
    name: &[u8],
    elements: &mut Elements<A>,
    out: &mut Watched<W>,
) -> Result<(), OutFault>
    requires well { IsFalse out.old.failed }
    requires empty { elements.old.piece ≡ [] }
    ensures { Adds out.old out.new elements.old elements.new result (missing_value name.now ∷ []) }
{
    elements.piece.missing(name)?;
    elements.send(out)
}

// Sends names that are missing.
fn send_missing<A: Allocator + Copy, W: Write>(
    names: &[&[u8]],
    elements: &mut Elements<A>,
    out: &mut Watched<W>,
) -> Result<(), OutFault>
    requires well { IsFalse out.old.failed }
    requires empty { elements.old.piece ≡ [] }
    ensures { Adds out.old out.new elements.old elements.new result
        (flat_map (λ t. missing_value t.now ∷ []) names.now) }
{
    'names: for name in names {
        send_name(name, elements, out)?;
    }
    Ok(())
}

// Sends all findings.
fn send_findings<A: Allocator + Copy, B: Allocator, W: Write>(
    found: &CheckUp<'_, B>,
    elements: &mut Elements<A>,
    out: &mut Watched<W>,
) -> Result<(), OutFault>
    requires well { IsFalse out.old.failed }
    requires empty { elements.old.piece ≡ [] }
    ensures { Adds out.old out.new elements.old elements.new result (finding_values found.now) }
{
    send_if(is_open_file(found.mode()), Finding::Mode, elements, out)?;
    send_entries(found.entries(), elements, out)?;
    send_names(Finding::Nostrong, found.entries(), elements, out)?;
    send_if(found.is_empty(), Finding::Empty, elements, out)?;
    send_missing(found.missing(), elements, out)?;
    send_names(Finding::Unwanted, found.entries(), elements, out)
}

/// Writes a check of a keytab as one JSON object (RFC 8259) and a newline: its file name, the mode of its plain file,
/// how many entries and holes there are, an element for each finding in the order of the lines, the fault, and the
/// status that the check comes to. The text goes out in large writes; if one fails, a prefix of the text has been
/// written.
pub fn check_json<A: Allocator + Copy, B: Allocator, W: Write>(
    alloc: A,
    file: &str,
    found: &CheckUp<'_, B>,
    status: u8,
    out: &mut Watched<W>,
) -> Result<(), OutFault>
    requires { IsFalse out.old.failed }
    ensures prints { Prints out.old out.new result (check_json_text file.now found.now status) }
    // A reader parses the text as this value.
    ensures reads_back { OnOk result (document (json_text (check_value file.now found.now status))
        ≡ Some (check_value file.now found.now status)) }
{
    let mut elements = Elements::new(alloc)?;
    begin(file, found, &mut elements)?;
    send_findings(found, &mut elements, out)?;
    elements.end_file(found.fault(), Some(status), out)
}
