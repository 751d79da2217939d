//! The outside: where files come from and go to, where output goes, and how a run ends.
#![tactic(auto)]

mod ends;
mod memory_shelf;
mod memory_sink;
mod shelf;
mod sink;
mod status;
mod system;

pub use ends::{cause_of, read_front, write_front, write_whole};
pub use memory_shelf::{Entry, MemShelf};
pub use memory_sink::MemSink;
pub use shelf::{Shelf, ShelfError};
pub use sink::{Sink, SinkError, write_all};
pub use status::Status;
pub use system::{FileShelf, StdSink};
