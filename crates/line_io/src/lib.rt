//! Input as bytes cut into lines and output as bytes taken, through two traits whose contracts tell the bytes and count the faults.
#![tactic(auto)]

mod copies;
mod fault;
mod gathered;
mod mem_sink;
mod mem_source;
mod reader;
mod sink;
mod source;
mod std_sink;
mod std_source;
mod sum_sink;
mod sure_source;
mod tries;

pub use fault::OpenFault;
pub use gathered::Gathered;
pub use mem_sink::MemSink;
pub use mem_source::MemSource;
pub use reader::{LONGEST_LINE, Limits, LineGot, LineReader};
pub use sink::{Sink, SinkFault, Took, put_all};
pub use source::{Got, Source};
pub use std_sink::StdSink;
pub use std_source::StdSource;
pub use sum_sink::{SumSink, Summary};
pub use sure_source::SureSource;
