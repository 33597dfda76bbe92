//! The cursor document of a hive: the last commit that the hive has taken up, written and read back.
//!
//! Cursors are those of the catalog's consumers (Microsoft Learn, NuGet Server API, "Catalog"). This crate
//! does no input or output, and knows no area.
//!
//! ```rust
//! let bytes = cursor_bytes(alloc, &mark)?;
//! let mark = read_cursor(alloc, bytes.as_slice())?;
//! ```
#![tactic(auto)]

mod laws;
mod mark;
mod reading;
mod writing;

pub use catalog_doc::DocErr;
pub use laws::{different_cursors, first_document};
pub use mark::Mark;
pub use reading::read_cursor;
pub use writing::{CURSOR_NAME, cursor_bytes};
