//! What a server is handed from outside: sources and sinks of bytes, clocks, random words and
//! shelves of files, each with a form in memory, whose faults can be chosen, and an adapter over
//! the system.
#![tactic(auto)]

mod clock;
mod faults;
mod folder;
mod shelf;
mod sink;
mod source;
mod standard;
mod system;
mod words;
mod writing;

pub use clock::{Clock, FixedClock};
pub use faults::{Failed, FaultCount, FaultPlan, UseCount};
pub use folder::FolderShelf;
pub use shelf::{MemShelf, Shelf, ShelfFault};
pub use sink::{MemSink, Sink};
pub use source::{MemSource, Source};
pub use standard::{ReaderSource, WriterSink};
pub use system::{RandomDevice, SystemClock};
pub use words::{CountWords, Words};
pub use writing::write_whole;
