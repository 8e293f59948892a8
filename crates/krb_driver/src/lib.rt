//! What a command is, the driver that runs one, and what a run reports when it fails.
#![tactic(auto)]

mod beginning;
mod command;
mod command_line;
mod either;
mod error;
mod file_name;
mod first_word;
mod holding;
mod loading;
mod not_opened;
mod opening;
mod reporting;
mod several;
mod verdict;
mod without_files;

pub use command::{Command, FileError, Made, MakeResult, Output, RunEnd, Show, World, finish, run};
pub use command_line::matches::{Matches, first_value, refuse_twice, times_given, typed, v1_order};
pub use command_line::mistake::{BadLine, Mistake, More, Phrase, WordFault};
pub use command_line::spelled::{
    Spelled, spelled_asked, spelled_count, spelled_etype, spelled_etypes, spelled_name,
    spelled_names, spelled_seconds, spelled_version,
};
pub use command_line::words::{
    CommandName, CommandWords, DRY_RUN, IN_PLACE, OF_PATTERN, V1_BIG, Word,
};
pub use either::{Contents, EitherUse};
pub use error::{RunError, is_spent};
pub use file_name::{FileName, NameSource, append_name, type_of};
pub use first_word::FirstWord;
pub use holding::{hold, hold_if, release};
pub use loading::{cache_of, keytab_of, read_input};
pub use not_opened::{Expected, NotOpened, OpenFault};
pub use opening::{CacheUse, KeytabUse, Opener, give, open, try_open};
pub use reporting::details::{Details, details_of};
pub use reporting::reported::replied_verdict;
pub use reporting::{
    ErrorOutput, ErrorRow, Line, MessagePiece, Said, append_said, line, name_near, report,
    report_word_fault, show, write_pieces,
};
pub use several::{OverFiles, Ran, label_of, run_over};
pub use verdict::{FileKind, Findings, Judged, TicketsSought, Verdict};
pub use without_files::{end_before, print};
