//! Texts out of files and bytes onto streams, each answer with its cause.
//!
//! A `Shelf` gives the bytes that stand under a name and a `Sink` takes bytes; both count their faults.
//! `read_text` reads a whole text within a limit, and `write_all_of` writes a whole list of bytes.
//! Memory (`MemShelf`, `MemSink`) tells what it holds, and the system (`FileShelf`, `StdSink`) counts alone.
//!
//!     let mut shelf = FileShelf::new(&rt, rt.alloc());
//!     let mut out = StdSink::new(io::writer(&rt));
//!     match read_text(rt.alloc(), &mut shelf, "hello.campl", 1_048_576) {
//!         Ok(text) => write_all_of(&mut out, text.as_str().as_bytes()),
//!         Err(fault) => ..
//!     }
#![tactic(auto)]

mod file_shelf;
mod mem_shelf;
mod mem_sink;
mod reading;
mod std_sink;
mod utf8;
mod writing;

pub use file_shelf::FileShelf;
pub use mem_shelf::MemShelf;
pub use mem_sink::MemSink;
pub use reading::{Failed, Shelf, TextFault, read_text};
pub use std_sink::StdSink;
pub use utf8::{TEXT_BYTES_MAX, Text};
pub use writing::{Sink, SinkFault, write_all_of};
