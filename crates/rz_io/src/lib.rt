//! The outside as two traits, a store of files and a sink for bytes: in memory, over readers and
//! writers, and the system's.
#![tactic(auto)]

mod disk;
mod files;
mod good;
mod lookup;
mod memory;
mod reader;
mod schedule;
mod sink;
mod standard;
mod turns;
mod writer;

pub use disk::{Disk, DiskFiles};
pub use files::{Files, ReadFault};
pub use good::{GoodFiles, GoodSink};
pub use memory::{MemoryFiles, MemorySink};
pub use reader::{Opener, ReaderFiles};
pub use sink::{Sink, WriteFault, write_all};
pub use standard::StdSink;
pub use writer::WriterSink;
