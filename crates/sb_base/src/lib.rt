//! What every layer of PREfast speaks of: places in files, refusals, tokens, the tables of names and of files, and the
//! outside as a library of files and a sink of bytes.
#![tactic(auto)]

mod fetch;
mod files;
mod host;
mod interning;
mod memory;
mod outside;
mod refusals;
mod tokens;

pub use fetch::{Found, fetch_file};
pub use files::Files;
pub use host::{FolderLibrary, OutSink};
pub use interning::{Name, Names, NamesFault};
pub use memory::{MemLibrary, MemSink};
pub use outside::{FetchFault, Fetched, Library, PutFault, Sink};
pub use refusals::{Place, Refusal, Stop};
pub use tokens::{PpKind, Token};
