//! Sources and sinks of bytes that count their faults, in memory and over std's streams, and the loops over them.
#![tactic(auto)]

mod memory;
mod stream;
mod sure;
#[cfg(test)]
mod tests;
mod traits;
mod transfer;

pub use memory::{MemorySink, MemorySource};
pub use stream::{StreamSink, StreamSource};
pub use sure::{SureSink, SureSource, never_counted_never_failed};
pub use traits::{Failed, Sink, Source};
pub use transfer::{ReadFault, read_input, write_line};
