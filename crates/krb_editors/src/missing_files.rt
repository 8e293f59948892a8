//! Looks for several files before anything is done with one of them.

ghost use Rattle.std.specs.Prelude.{length, nat_lt};
ghost use Rattle.krb_editors.specs.MissingFiles.{LooksAt, LooksIf, LooksFor};

use krb_driver::{Details, ErrorOutput, FileName, RunError, World, report};
use krb_files::{Files, Node};
use std::io::{Read, Write};

// Looks for a file, and reports it if it is missing. Returns whether it is.
fn look_for<F: Files, E: Write>(files: &F, file: FileName<'_>, err: &mut ErrorOutput<E>) -> bool
    ensures { LooksAt F.Files files.now file.entry err.old err.new result }
{
    let node = files.node(file.name);
    let error = if file.is_other_type {
        RunError::OtherType(file.kind, file.source)
    } else if matches!(node, Node::Nothing) {
        RunError::NoSuchFile(file.source)
    } else {
        return false;
    };
    let (name, details) = (file.name.as_bytes(), Details::unsaved(None));
    report(Err(error), name, None, details, err);
    true
}

// Looks for each of these files, and reports those that are missing. Returns whether there are any.
fn look_for_all<F: Files, E: Write>(
    files: &F,
    names: &[FileName<'_>],
    err: &mut ErrorOutput<E>,
) -> bool
    ensures { LooksFor F.Files files.now names.now err.old err.new result }
{
    let mut is_one_missing = false;
    'names: for file in names {
        is_one_missing |= look_for(files, *file, err);
    }
    is_one_missing
}

/// Returns whether one of several files is missing, and reports each that is. No file is held or loaded: a principal that
/// is given without `-p`, among the files, must not cost the keys of all others.
pub fn is_one_missing<F: Files, R: Read, W: Write, E: Write>(
    names: &[FileName<'_>],
    world: &mut World<F, R, W, E>,
) -> bool
    ensures { LooksIf F.Files names.now world.old world.new result (nat_lt 1 (length names.now)) }
{
    names.len() > 1 && look_for_all(&world.files, names, &mut world.err)
}
