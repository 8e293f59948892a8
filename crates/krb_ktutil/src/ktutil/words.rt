//! The words of a line. Runs of spaces and tabs separate them; a backslash keeps the byte after it in its word.

ghost use Rattle.std.specs.Prelude.{◌≡◌, ◌==◌, ◌&&◌, not, ◌<◌, ◌≤◌, ◌∷◌, [], length, MatchOption};
ghost use Rattle.krb_ktutil.specs.KtutilCommand.{is_blank, unindented, trimmed, word_size, words};

fn is_blank(byte: u8) -> bool
    ensures { result ≡ is_blank byte }
{
    byte == b' ' || byte == b'\t'
}

// Returns a text without its leading blanks.
fn unindented(text: &[u8]) -> &[u8]
    ensures same { result.now ≡ unindented text.now }
    ensures within { length result.now ≤ length text.now }
{
    let mut rest = text;
    while let [byte, after @ ..] = rest {
        if !is_blank(*byte) {
            return rest;
        }
        rest = after;
    }
    rest
}

// Returns whether a word ends at a byte, which is quoted or not.
fn ends_word(is_quoted: bool, byte: u8) -> bool
    ensures { result ≡ (not is_quoted && is_blank byte) }
{
    !is_quoted && is_blank(byte)
}

// Returns whether a byte quotes the byte after it.
fn quotes_next(is_quoted: bool, byte: u8) -> bool
    ensures { result ≡ (not is_quoted && byte == 92) }
{
    !is_quoted && byte == b'\\'
}

// Returns the number of bytes before the first blank that is not quoted.
fn word_size(text: &[u8]) -> usize
    ensures { result ≡ word_size text.now }
{
    let mut is_quoted = false;
    for (size, byte) in text.iter().enumerate() {
        if ends_word(is_quoted, *byte) {
            return size;
        }
        is_quoted = quotes_next(is_quoted, *byte);
    }
    text.len()
}

/// Returns the first word of a line, and the rest of the line after it.
pub fn next_word(line: &[u8]) -> Option<(&[u8], &[u8])>
    ensures { MatchOption result (words line.now ≡ [])
        (λ x. (words line.now ≡ x.0.now ∷ words x.1.now) × (length x.1.now < length line.now)) }
{
    let text = unindented(line);
    if text.is_empty() {
        return None;
    }
    let size = word_size(text);
    Some(text.split_at(size))
}

/// Returns a text without the blanks at its ends.
pub fn trimmed(text: &[u8]) -> &[u8]
    ensures { result.now ≡ trimmed text.now }
{
    let mut rest = unindented(text);
    while let [before @ .., byte] = rest {
        if !is_blank(*byte) {
            return rest;
        }
        rest = before;
    }
    rest
}
