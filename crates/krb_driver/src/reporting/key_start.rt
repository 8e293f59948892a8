//! Where in a word what may be a key begins.

ghost use Rattle.std.specs.Prelude.{◌≡◌, ◌≤◌, ◌&&◌, length};
ghost use Rattle.std.specs.List.{list_all};
ghost use Rattle.std.specs.Char.{is_ascii_hexdigit};
ghost use Rattle.krb_driver.specs.Messages.{has_key, key_start, may_be_key};

// Returns whether all bytes are hexadecimal digits.
fn are_digits(bytes: &[u8]) -> bool
    ensures { result ≡ list_all is_ascii_hexdigit bytes.now }
{
    bytes.iter().all(|byte| byte.is_ascii_hexdigit())
}

// Returns whether bytes may be a key: they begin with sixteen hexadecimal digits.
fn may_be_key(word: &[u8]) -> bool
    ensures { result ≡ may_be_key word.now }
{
    word.len() >= 16 && are_digits(&word[..16])
}

// Returns whether what may be a key begins with a word, if it can begin there.
fn begins(can_begin: bool, word: &[u8]) -> bool
    ensures { result ≡ (can_begin && may_be_key word.now) }
{
    can_begin && may_be_key(word)
}

/// Returns where in a word what may be a key begins, at its start or after a `=`, or else the word's length.
#[tactic(auto, using(crate::proofs::Words::key_here, crate::proofs::Words::key_later, crate::proofs::Words::key_nowhere))]
pub fn key_start(word: &[u8]) -> usize
    ensures start { result ≡ key_start word.now }
    ensures within { result ≤ length word.now }
{
    let mut can_begin = true;
    'bytes: for at in 0..word.len() {
        if begins(can_begin, &word[at..]) {
            return at;
        }
        can_begin = word[at] == b'=';
    }
    word.len()
}

/// Returns whether a word has what may be a key.
pub fn has_key(word: &[u8]) -> bool
    ensures { result ≡ has_key word.now }
{
    key_start(word) < word.len()
}
