//! Scripts: text whose lines are commands.

ghost use Rattle.std.specs.Prelude.{◌≡◌, ◌++◌, ◌∷◌, [], Ok, IfOk, IfErr, OnOk, IsOkAnd, IsErrOf, ℕ, List, Result};
ghost use Rattle.krb_text.specs.Word.{pieces};
ghost use Rattle.krb_keytab_text.specs.Script.{is_command, commands_from, script_of, script_by, RefusesScript, TakesMemory};
ghost use Rattle.krb_text.specs.declared.line_fault.LineFault.{LineFault as FaultOfLine};
ghost use Rattle.krb_text.specs.LineFault.{Reads};

pub(crate) mod command;
mod event_line;

use krb_text::{LineRefusal, Lines, ScriptRefusal};
use std::alloc::Allocator;

/// A parsed line of a script.
pub trait ScriptLine<A: Allocator>: Sized + Drop {
    /// What a line is parsed as, or its first fault.
    ghost line_in: { List ℕ → Result Self FaultOfLine };

    /// Parses a line. If it has a fault, that fault is returned, even when out of memory.
    fn parse(alloc: A, line: &[u8]) -> Result<Self, LineRefusal>
        ensures { Reads (λ read_lines. read_lines) (line_in line.now) result };
}

// Whether a line is a command: it is neither empty nor a comment.
fn is_command(line: &[u8]) -> bool
    ensures { result ≡ is_command line.now }
{
    line.first().is_some_and(|first| *first != b'#')
}

// Parses a line and appends the result.
fn add_line<A: Allocator, L: ScriptLine<A>>(
    alloc: A,
    number: u64,
    line: &[u8],
    read_lines: &mut Vec<L, A>,
) -> Result<(), ScriptRefusal>
    ensures ok { OnOk result
        (IsOkAnd (L.line_in line.now) (λ x. read_lines.new.items ≡ read_lines.old.items ++ x ∷ [])) }
    ensures err { IfErr result (RefusesScript (script_of L.line_in ((number, line.now) ∷ []))) }
    ensures memory { IsErrOf result ScriptRefusal.NoMemory
        → TakesMemory L.line_in ((number, line.now) ∷ []) }
{
    match L::parse(alloc, line) {
        Ok(x) => Ok(read_lines.push(x)?),
        Err(LineRefusal::Fault(kind)) => Err(ScriptRefusal::Fault { line: number, kind }),
        Err(LineRefusal::NoMemory) => Err(ScriptRefusal::NoMemory),
    }
}

/// Parses the lines of a script, in order. Empty lines and lines that begin with `#` are skipped, but counted. If an
/// allocation fails, a later line may have a fault that is not reported.
pub fn parse_script<A: Allocator + Copy, L: ScriptLine<A>>(
    alloc: A,
    text: &[u8],
) -> Result<Vec<L, A>, ScriptRefusal>
    ensures ok { IfOk result (λ read_lines. script_by L.line_in text.now ≡ Ok read_lines.items) }
    ensures err { IfErr result (RefusesScript (script_by L.line_in text.now)) }
    ensures memory { IsErrOf result ScriptRefusal.NoMemory
        → TakesMemory L.line_in (commands_from 1 (pieces 10 text.now)) }
{
    let mut read_lines = Vec::new(alloc);
    let mut number = 0;
    'lines: for line in Lines::of(text) {
        number += 1;
        if is_command(line) {
            add_line(alloc, number, line, &mut read_lines)?;
        }
    }
    Ok(read_lines)
}
