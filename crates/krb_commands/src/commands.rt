//! The commands.

use krb_driver::{CommandName, CommandWords};
use krb_editors::{CCEDIT, CCREMOVE, HOLD, KTCOPY, KTDIFF, KTEDIT, KTREMOVE};
use krb_ktutil::KTUTIL;
use krb_readers::{KLIST, KTCHECK, KTFIND, KTMATCH, SHOW};

/// The words of each command, in the order of `CommandName`, in which help lists them.
pub const COMMANDS: [CommandWords; 13] = [
    KLIST, SHOW, KTMATCH, KTEDIT, KTFIND, KTREMOVE, KTCOPY, KTDIFF, KTCHECK, CCEDIT, CCREMOVE,
    KTUTIL, HOLD,
];

/// Returns the words of a command.
pub fn words_of(command: CommandName) -> CommandWords {
    COMMANDS[command as usize]
}
