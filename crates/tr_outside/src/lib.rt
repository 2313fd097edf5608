//! The traits of the outside: sources and sinks of bytes that count their faults, with adapters
//! over memory, files and the standard streams, and the bytes of an image.
//!
//! A call fails only where the count of faults rose, so whoever answers a fault can show its cause.
#![tactic(auto)]

mod counting;
mod file;
mod image;
mod image_fault;
mod image_read;
mod memory;
mod standard;
mod traits;
mod whole;

pub use file::{FileSink, FileSource};
pub use image::write_image;
pub use image_fault::ImageFault;
pub use image_read::read_image;
pub use memory::{MemSink, MemSource};
pub use standard::{StdSink, StdSource};
pub use traits::{Failed, Sink, Source};
pub use whole::{ReadError, WriteFault, read_up_to, write_all};
