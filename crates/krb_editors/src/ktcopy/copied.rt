//! What ktcopy prints and saves of what it copied.

ghost use Rattle.std.specs.Prelude.{◌≡◌, Ok, if◌then◌else◌};
ghost use Rattle.krb_copy.specs.Copying.{Run};
ghost use Rattle.krb_copy.specs.Made.{IsMade as IsRunOf};
ghost use Rattle.krb_audit.specs.Findings.{hides_added};
ghost use Rattle.krb_driver.specs.Composing.{text_effect};
ghost use Rattle.krb_driver.specs.RunErrors.{hiding};
ghost use Rattle.krb_driver.specs.declared.verdict.Verdict.TheVariants.{Clashed, Well};
ghost use Rattle.krb_editors.specs.Ktcopy.{copied_effect};

use crate::ktcopy::{CopyEntries, CopyOptions};
use krb_audit::hides_added;
use krb_copy::Copied;
use krb_driver::{FileError, Made, Output, Verdict};
use krb_keytab::Keytab;
use std::alloc::Allocator;

// Returns what to print if an entry clashed: all lines in a dry run, and otherwise those of the clashes.
fn clashed<A: Allocator, B: Allocator>(
    options: &CopyOptions<B>,
    text: Vec<u8, A>,
    clashes: Vec<u8, A>,
) -> Output<A>
    ensures text { result.text.items ≡ (if options.now.dry_run then text.items else clashes.items) }
    ensures verdict { result.verdict ≡ Clashed options.now.replace }
{
    let replaces = options.replace;
    Output {
        text: if options.dry_run { text } else { clashes },
        verdict: Verdict::Clashed { replaces },
    }
}

// Returns what to print of a run that copied entries to these places. The verdict says if MIT's programs miss one.
fn copied_output<A: Allocator>(keytab: &Keytab<A>, places: &[u32], text: Vec<u8, A>) -> Output<A>
    ensures text { result.text.items ≡ text.items }
    ensures verdict { result.verdict ≡ hiding (hides_added keytab.now.state places.now) Well }
{
    let verdict = Verdict::Well.hiding(hides_added(keytab, places));
    Output { text, verdict }
}

/// Returns what to print and save of what was copied.
pub fn made<'a, A: Allocator + Copy, B: Allocator>(
    command: &CopyEntries<'a, B>,
    copied: Copied<A>,
) -> Result<Made<A, Output<A>>, FileError<'a>>
    ensures { (run : Run) → IsRunOf (Ok run) copied.text.items copied.clashes.items copied.places.items copied.keytab.state
        → text_effect command.now.to.name.now result ≡ copied_effect command.now.options.now command.now.to.name.now (Ok run) }
{
    let Copied {
        text,
        clashes,
        places,
        keytab,
    } = copied;
    let options = command.options;
    if !clashes.is_empty() {
        return Ok(Made::Shows(clashed(options, text, clashes)));
    }
    if text.is_empty() {
        let verdict = Verdict::Well;
        return Ok(Made::Shows(Output { text, verdict }));
    }
    let output = copied_output(&keytab, &places, text);
    if options.dry_run {
        return Ok(Made::Shows(output));
    }
    Ok(Made::Saves(keytab.into_image(), output))
}
