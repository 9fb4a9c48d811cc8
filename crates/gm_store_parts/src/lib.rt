//! What stores of modules' files are made of: names of files, answers and what is kept of them, lists of proxies, and
//! how files and streams are read and written.
//!
//! What stores of other crates are made of is public as well: the rule by which a lookup that opened a file ends
//! (`opened_result`), a lookup in a folder in memory, and what a store keeps and lends (`AllAnswers`). `History` is a
//! list of pairs for proofs alone.
#![tactic(auto)]

mod byte_reader;
mod fallback;
mod file_system;
mod files;
mod looked;
mod lookup_result;
mod memory_folder;
mod reading;
mod sinks;
mod standard_input;

pub use crate::byte_reader::ByteReader;
pub use crate::fallback::proxy_list::{Mark, ProxyFault, ProxyList};
pub use crate::fallback::step::{Next, step};
pub use crate::file_system::{FileSystem, read_file};
pub use crate::files::all_answers::AllAnswers;
pub use crate::files::failing::FailingFiles;
pub use crate::files::history::History;
pub use crate::files::keeping::Keeps;
pub use crate::files::last_answer::LastAnswer;
pub use crate::files::memory::MemoryFiles;
pub use crate::files::{Answer, AskFault, Asks, FileName, Files, copy_name};
pub use crate::looked::Looked;
pub use crate::lookup_result::opened_result;
pub use crate::memory_folder::{Held, MemoryFolder};
pub use crate::reading::{LIMIT, ReadFault, read_limited};
pub use crate::sinks::memory::MemorySink;
pub use crate::sinks::writer::StdSink;
pub use crate::sinks::{Sink, WriteFault, write_all};
pub use crate::standard_input::{StandardInput, read_input};
