//! The bodies that ask for changes, and the reply lines with their statuses.
#![tactic(auto)]

mod area;
mod cut;
mod error;
mod header;
mod laws;
mod line;
mod line_numbers;
mod line_text;
mod names;
mod records;

pub use area::{AreaName, area_word, hive_word};
pub use error::BodyErr;
pub use laws::bodies_have_one_answer;
pub use line::{Generated, Line, Refusal};
pub use line_numbers::{line_http, line_status};
pub use line_text::{MEMORY_LINE, line_bytes};
pub use names::{NameKind, read_names, read_pair};
pub use records::read_publish;
