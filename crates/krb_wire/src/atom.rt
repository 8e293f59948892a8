//! The text of a name, split into atoms.

ghost use Rattle.std.specs.Prelude.{◌≡◌, ◌<◌, ◌≤◌, [], ◌∷◌, ◌++◌, length, map, MatchOption};
ghost use Rattle.std.specs.List.{position};
ghost use Rattle.krb_wire.specs.declared.atom.Atom.TheVariants.{Byte};
ghost use Rattle.krb_wire.specs.Atoms.{atoms, is_special, meaning, unquoted_atom};

// A plain or quoted byte, an unquoted `/` or `@`, or a backslash that ends the text.
#[derive(Clone, Copy, PartialEq, Eq)]
pub enum Atom {
    Byte(u8),
    Slash,
    At,
    Lone,
}

fn meant_by(byte: u8) -> u8
    ensures { result ≡ meaning byte }
{
    match byte {
        b'n' => b'\n',
        b't' => b'\t',
        b'b' => 8,
        b'0' => 0,
        _ => byte,
    }
}

fn plain_atom(byte: u8) -> Atom
    ensures { result ≡ unquoted_atom byte }
{
    match byte {
        b'/' => Atom::Slash,
        b'@' => Atom::At,
        _ => Atom::Byte(byte),
    }
}

// Returns whether an unquoted byte is special: `/`, `@` or the backslash.
fn is_special(byte: u8) -> bool
    ensures { result ≡ is_special byte }
{
    matches!(byte, b'/' | b'@' | b'\\')
}

// Returns the index of the first special byte.
fn plain_end(text: &[u8]) -> Option<usize>
    ensures { result ≡ position is_special text.now }
{
    text.iter().position(|byte| is_special(*byte))
}

// Splits off the plain bytes that a text begins with.
#[tactic(auto, using(crate::proofs::PlainRuns::plain_before, crate::proofs::PlainRuns::plain_whole))]
pub fn split_plain(text: &[u8]) -> (&[u8], &[u8])
    ensures cut { atoms text.now ≡ map Byte result.0.now ++ atoms result.1.now }
    ensures shorter { length result.1.now ≤ length text.now }
{
    match plain_end(text) {
        Some(end) => text.split_at(end),
        None => (text, &[]),
    }
}

// Splits off the first atom of a text, or returns `None` if the text is empty.
pub fn next_atom(text: &[u8]) -> Option<(Atom, &[u8])>
    ensures cut { MatchOption result (text.now ≡ []) (λ x. atoms text.now ≡ x.0 ∷ atoms x.1.now) }
    ensures shorter { MatchOption result (text.now ≡ []) (λ x. length x.1.now < length text.now) }
{
    let (first, rest) = text.split_first()?;
    if *first != b'\\' {
        return Some((plain_atom(*first), rest));
    }
    let Some((byte, after)) = rest.split_first() else {
        return Some((Atom::Lone, rest));
    };
    Some((Atom::Byte(meant_by(*byte)), after))
}
