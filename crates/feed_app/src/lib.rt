//! The top call of the feed: a command from its words to its reply line and status, on stores, streams and a clock that
//! are handed in.
#![tactic(auto)]

mod answer;
mod causes;
mod commit_laws;
mod committing;
mod cursor;
mod cut;
mod get;
mod get_laws;
mod hives;
mod init;
mod input;
mod job;
mod laws;
mod names;
mod publish;
mod run;
mod target;
mod words;

pub use admin_wire::{AreaName, Line, NameKind, Refusal};
pub use answer::Answer;
pub use catalog_core::Stores;
pub use commit_laws::{commits_are_found, commits_stop_between};
pub use feed_base::Status;
pub use feed_words::{Words, read_words};
pub use get_laws::serves_documents;
pub use laws::{answers_usage, completes, explains_statuses, keeps_others};
pub use run::run_command;
pub use words::{Command, meaning_of};
