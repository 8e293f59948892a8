//! Hints: the commands that show what can be done about findings.

ghost use Rattle.std.specs.Prelude.{◌≡◌, ◌<◌, ◌++◌, codes};
ghost use Rattle.std.specs.List.{flat_map, range_with_len};
ghost use Rattle.krb_findings.specs.Table.{has};
ghost use Rattle.krb_driver.specs.Hints.{etype_option, etype_word, hint_words, hints_for, order_flag, remove_command, weak_hint};
ghost use Rattle.krb_driver.specs.Messages.{line_if, piece_text, pieces_text};
ghost use Rattle.krb_driver.specs.Runs.{Adds};

use crate::reporting::lines::{Line, line, nothing};
use crate::reporting::operand::{are_alike, operand_of};
use crate::reporting::piece::END;
use crate::reporting::piece::MessagePiece::{self, Number, Operand, Text};
use crate::reporting::writing::{Gathered, add_line, add_pieces};
use crate::verdict::Findings;
use krb_files::Watched;
use krb_findings::Finding;
use krb_text::etype_name;
use krb_wire::Order;
use std::io::Write;

const TO_REMOVE: &str = "krbfile: to see what would go: krbfile ktremove";

// What hints for old and for doubled entries say: up to the command's name, and before and after the operand.
const OLD_TEXTS: (&str, &str, &str) = (TO_REMOVE, " -n -k old --age 86400 ", "\n");

const SAME_TEXTS: (&str, &str, &str) = (
    "krbfile: to have each once: krbfile ktcopy",
    " ",
    " NEW\n",
);

// Returns an enctype as an operand: its name, or its number if it has none.
fn etype_word(etype: u16) -> MessagePiece<'static>
    ensures { piece_text result ≡ etype_word etype }
{
    match etype_name(etype) {
        Some(name) => Text(name),
        None => Number(u64::from(etype)),
    }
}

// Returns the option for an enctype, if it was found.
fn etype_option(found: &[bool; 27], etype: u16) -> Line<'static>
    requires { etype < 27 }
    ensures { pieces_text result.items ≡ etype_option found.now etype }
{
    if found[usize::from(etype)] {
        line(&[Text(" -e "), etype_word(etype)])
    } else {
        nothing()
    }
}

fn add_etypes<E: Write>(found: &[bool; 27], gathered: &mut Gathered, err: &mut Watched<E>)
    ensures { Adds err.old gathered.old.items err.new gathered.new.items (flat_map (etype_option found.now) (range_with_len 0 27)) }
{
    'etypes: for etype in 0..27u16 {
        add_line(&etype_option(found, etype), gathered, err);
    }
}

// Returns the flag for big-endian keytabs of version 1, if the check was given it.
fn order_flag(order: Order) -> &'static str
    ensures { result.now ≡ order_flag order }
{
    match order {
        Order::Big => " --v1-big",
        Order::Little => "",
    }
}

// Returns a hint if its word is explained, else nothing. After its first text comes the flag of the check.
fn hint<'a>(
    findings: &Findings,
    word: Finding,
    texts: (&'static str, &'static str, &'static str),
    operand: &'a [u8],
) -> Line<'a>
    ensures { pieces_text result.items ≡ line_if (has findings.now.words word)
        (texts.entry.0.now ++ (order_flag findings.now.v1_order ++ (texts.entry.1.now ++ (operand.now ++ texts.entry.2.now)))) }
{
    if !findings.words.has(word) {
        return nothing();
    }
    let flag = Text(order_flag(findings.v1_order));
    let (head, options, tail) = (Text(texts.0), Text(texts.1), Text(texts.2));
    line(&[head, flag, options, Operand(operand), tail])
}

// Returns the dry run of ktremove, up to its options.
fn remove_command(order: Order) -> [MessagePiece<'static>; 3]
    ensures { pieces_text result ≡ remove_command order }
{
    [Text(TO_REMOVE), Text(order_flag(order)), Text(" -n")]
}

// Returns the end of a hint: its operand.
fn last_of<'a>(operand: &'a [u8]) -> [MessagePiece<'a>; 3]
    ensures { pieces_text result ≡ codes " " ++ (operand.now ++ codes "\n") }
{
    [Text(" "), Operand(operand), END]
}

// Adds the hint for weak enctypes, if that is explained, but not if it would take all keys of a name.
fn add_weak_hint<E: Write>(
    findings: &Findings,
    operand: &[u8],
    gathered: &mut Gathered,
    err: &mut Watched<E>,
)
    ensures { Adds err.old gathered.old.items err.new gathered.new.items (weak_hint findings.now operand.now) }
{
    let is_due = findings.words.has(Finding::Weak) & !findings.lacks_strong;
    if !is_due {
        return;
    }
    add_pieces(&remove_command(findings.v1_order), gathered, err);
    add_etypes(&findings.weak_etypes.found, gathered, err);
    add_pieces(&last_of(operand), gathered, err);
}

// Adds the hints for a file that is this operand.
fn add_hints_for<E: Write>(
    findings: &Findings,
    operand: &[u8],
    gathered: &mut Gathered,
    err: &mut Watched<E>,
)
    ensures { Adds err.old gathered.old.items err.new gathered.new.items (hints_for findings.now operand.now) }
{
    let old = hint(findings, Finding::Old, OLD_TEXTS, operand);
    let same = hint(findings, Finding::Same, SAME_TEXTS, operand);
    add_line(&old, gathered, err);
    add_weak_hint(findings, operand, gathered, err);
    add_line(&same, gathered, err);
}

/// Adds the hints for findings about a file, unless its name is too long for them, or shells read it in more than one way.
pub fn add_hints<E: Write>(
    findings: &Findings,
    file: &[u8],
    gathered: &mut Gathered,
    err: &mut Watched<E>,
)
    ensures { Adds err.old gathered.old.items err.new gathered.new.items (hint_words file.now findings.now) }
{
    if !are_alike(file) {
        return;
    }
    if let Some(operand) = operand_of(file) {
        add_hints_for(findings, operand.as_slice(), gathered, err);
    }
}
