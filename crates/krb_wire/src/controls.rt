//! Control characters: 7f, those below 20 and U+0080 to U+009F.

ghost use Rattle.std.specs.Prelude.{◌≡◌, ◌+◌, ◌<◌, ◌≤◌, ◌==◌, ◌++◌, length};
ghost use Rattle.std.specs.Char.{digit_char};
ghost use Rattle.arrayvec.specs.ArrayVec.{array_vec_len};
ghost use Rattle.krb_wire.specs.Controls.{added, digits, is_control, mark};

use arrayvec::ArrayVec;

/// The first of the two bytes of U+0080 to U+009F.
pub const FIRST: u8 = 0xc2;

/// What reads an escaped text.
#[derive(Clone, Copy)]
pub enum Style {
    Terminal,
    Json,
}

impl Style {
    // Returns whether a byte is a control character by itself.
    fn is_control(self, byte: u8) -> bool
        ensures { result ≡ is_control self byte }
    {
        match self {
            Style::Terminal => byte < 0x20 && byte != b'\n' || byte == 0x7f,
            Style::Json => byte == 0x7f,
        }
    }

    // Returns what an escape begins with: for a terminal, that of a pair has its first byte too.
    fn mark(self, is_pair: bool) -> &'static [u8]
        ensures text { result.now ≡ mark self is_pair }
        ensures len { length result.now ≤ 6 }
    {
        match (self, is_pair) {
            (Style::Terminal, false) => b"\\x",
            (Style::Terminal, true) => b"\\xc2\\x",
            (Style::Json, _) => b"\\u00",
        }
    }
}

// Returns a hexadecimal digit.
fn digit(value: u8) -> u8
    requires { value < 16 }
    ensures { result ≡ digit_char value }
{
    if value < 10 {
        return b'0' + value;
    }
    b'a' - 10 + value
}

// Adds a mark, and the two hexadecimal digits of a byte.
fn add_escape<const N: usize>(mark: &[u8], byte: u8, text: &mut ArrayVec<u8, N>)
    requires { array_vec_len text.old + length mark.now + 2 ≤ N }
    ensures items { text.new.items ≡ text.old.items ++ (mark.now ++ digits byte) }
    ensures len { array_vec_len text.new ≡ array_vec_len text.old + length mark.now + 2 }
{
    text.try_extend_from_slice(mark).unwrap();
    text.push(digit(byte / 16));
    text.push(digit(byte % 16));
}

/// Adds a byte, after a c2 that is held back or not. Returns whether it is a c2, which is then held back.
pub fn add<const N: usize>(style: Style, byte: u8, holds: bool, text: &mut ArrayVec<u8, N>) -> bool
    requires { array_vec_len text.old + 9 ≤ N }
    ensures items { text.new.items ≡ text.old.items ++ added style holds byte }
    ensures len { array_vec_len text.new ≤ array_vec_len text.old + 9 }
    ensures held { result ≡ (byte == 194) }
{
    if holds {
        if 0x80 <= byte && byte <= 0x9f {
            add_escape(style.mark(true), byte, text);
            return false;
        }
        text.push(FIRST);
    }
    if byte == FIRST {
        return true;
    }
    if style.is_control(byte) {
        add_escape(style.mark(false), byte, text);
    } else {
        text.push(byte);
    }
    false
}
