//! The commands over files and outputs: what each prints, what it reports if it fails, and its exit status.
#![tactic(auto)]

mod action;
mod commands;
mod needs;
mod response;

pub use action::{Action, KtutilOptions, action_of, at_terminal};
pub use commands::{COMMANDS, words_of};
pub use krb_driver::{
    BadLine, CommandName, CommandWords, ErrorOutput, FileKind, FileName, Matches, Mistake, More,
    NameSource, NotOpened, Phrase, Word, WordFault, World,
};
pub use krb_editors::{
    CopyOptions, DiffOptions, HoldKind, RemoveOptions, TicketOptions, run_ccedit, run_ccremove,
    run_hold, run_ktcopy, run_ktdiff, run_ktedit, run_ktremove,
};
pub use krb_ktutil::{Ktutil, Line, run_ktutil};
pub use krb_readers::{
    CheckOptions, FindOptions, KlistOptions, ListKind, MatchOptions, ShowOptions, TicketCheck,
    run_klist, run_ktcheck, run_ktfind, run_ktmatch, run_overview, run_show, run_ticket_check,
};
pub use needs::{LeftOut, Needs, needs_of};
pub use response::{DefaultName, respond};
