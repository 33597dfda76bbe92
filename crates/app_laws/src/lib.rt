//! What the commands of a feed leave of its hives, and what holds over any run of them. It has no body of its own: each
//! function is empty, and its clauses are laws of what `run_command` of `feed_app` does.
#![tactic(auto)]

mod feeds;
mod gets;
mod jobs;

pub use feeds::{commands_keep_feeds, feeds_begin, feeds_stay_sound, reads_reach_cursors};
pub use gets::gets_are_fresh;
pub use jobs::{cursors_are_told, jobs_leave_documents, jobs_stay_sound};
