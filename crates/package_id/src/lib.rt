//! Package ids: their grammar, and the key by which two ids are the same.
#![tactic(auto)]

mod error;
mod grammar;
mod id;
mod laws;

pub use error::IdErr;
pub use grammar::is_id;
pub use id::{MAX_ID_LEN, PackageId};
pub use laws::{key_laws, reasons_exclude};
