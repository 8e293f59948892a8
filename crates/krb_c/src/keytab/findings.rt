//! What is found about the entries of a keytab, as C sees it.

ghost use Rattle.std.specs.Prelude.{◌≡◌, IfOk, IsSome, map};
ghost use Rattle.krb_c.specs.Findings.{all_seen, bit_if, bits_of, seen};
ghost use Rattle.krb_c.specs.Held.{keytab_of, Looks};
ghost use Rattle.krb_c.specs.Text.{Copies};

use crate::handle::{KrbfKeytab, with_held};
use crate::heap::{Heap, heap};
use crate::status::{DONE, NO_MEMORY};
use crate::text::put_items;
use krb_audit::{CheckCriteria, Marked, check_up};
use krb_findings::{Finding, FindingSet};
use krb_keytab::Keytab;
use krb_wire::NoMemory;
use std::alloc::Global;

/// An entry about which, or about whose name, something is found: its place, and a bit for each finding.
#[repr(C)]
#[derive(Clone, Copy)]
pub struct KrbfFinding {
    pub place: u32,
    pub findings: u32,
}

fn bit_if(set: FindingSet, finding: Finding, bit: u32) -> u32
    ensures { result ≡ bit_if set finding bit }
{
    if set.has(finding) { bit } else { 0 }
}

// Returns the bits that C sees of a set of findings.
fn bits_of(set: FindingSet) -> u32
    ensures { result ≡ bits_of set }
{
    bit_if(set, Finding::Weak, 1)
        | bit_if(set, Finding::Size, 2)
        | bit_if(set, Finding::Same, 4)
        | bit_if(set, Finding::Clash, 8)
        | bit_if(set, Finding::Old, 16)
        | bit_if(set, Finding::Nostrong, 32)
        | bit_if(set, Finding::Hidden, 64)
}

// Returns what C sees of entries.
fn seen(alloc: Global, entries: &[Marked<'_>]) -> Result<Vec<KrbfFinding, Heap>, NoMemory>
    ensures { IfOk result (λ list. list.items ≡ map seen entries.now) }
{
    let mut list = Vec::with_capacity(heap(alloc), entries.len())?;
    'entries: for ((place, _), marks) in entries {
        list.push(KrbfFinding {
            place: *place,
            findings: bits_of(marks.findings),
        })?;
    }
    Ok(list)
}

// Copies as much as fits of what is found about the entries of a keytab into `room`, and reports how many these are.
fn copy_findings(
    alloc: Global,
    keytab: &Keytab<Heap>,
    room: &mut [KrbfFinding],
    len: &mut usize,
) -> u32
    ensures { Copies (all_seen keytab.now.state) result room.old room.new len.old len.new }
{
    let wanted: &[Vec<u8, Heap>] = &[];
    let asked = CheckCriteria {
        aged_by: None,
        wanted,
        only: false,
    };
    let Ok(found) = check_up(heap(alloc), None, &asked, keytab) else {
        return NO_MEMORY;
    };
    let Ok(list) = seen(alloc, found.entries()) else {
        return NO_MEMORY;
    };
    put_items(room, &list);
    *len = list.len();
    DONE
}

#[unsafe(no_mangle)]
pub extern "C" fn krbf_kt_findings(
    alloc: Global,
    kt: &mut KrbfKeytab,
    room: &mut [KrbfFinding],
    len: &mut usize,
) -> u32
    requires { IsSome (keytab_of kt.old) }
    ensures finds { Looks (keytab_of kt.old) (keytab_of kt.new) (λ k. Copies (all_seen k) result room.old room.new len.old len.new) }
{
    with_held!(kt, alloc, held => copy_findings(alloc, held.keytab().store(), room, len))
}
