//! Parts of the text that keytabs and credential caches share.
#![tactic(auto)]

mod bytes;
mod escape;
mod etype;
mod fault_line;
mod flags;
mod gather;
mod key;
mod line_fault;
mod pieces;
mod time;
mod word;

pub use bytes::{append, append_byte, append_labelled, append_right_in_4};
pub use escape::append_escaped;
pub use etype::{etype_name, etype_of, etype_short_name, etype_text, is_weak, key_size};
pub use fault_line::{append_fault, append_fault_line, send_last};
pub use flags::flag_letters;
pub use gather::{room_to_gather, send_if_full};
pub use key::{is_key, key_text, parse_key};
pub use line_fault::{LineFault, LineRefusal, ScriptRefusal};
pub use pieces::{Lines, Words};
pub use time::{LastTime, time_text};
pub use word::{etype_word, name_word, number_word, parse_seconds, parse_u32};
