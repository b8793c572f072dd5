//! Where bytes come in and go out: sources, sinks, and the loops over them.
//!
//! A source or a sink may tell its bytes to contracts, as the ones over memory do, or tell nothing, as
//! standard input and output do. Each keeps a count of faults that never falls, so that a fault that is
//! answered can be traced to the object that had it. A gate stands before each line of a script that workers run.
#![tactic(auto)]

mod bytes;
mod calls;
mod direct;
mod failed;
mod gate;
mod mem_sink;
mod mem_source;
mod no_memory;
mod out_buffer;
mod outlet;
mod reading;
mod sink;
mod source;
mod std_sink;
mod std_source;
mod write_fault;
mod writing;

pub use bytes::Bytes;
pub use direct::Direct;
pub use failed::Failed;
pub use gate::{FreeGate, Gate};
pub use mem_sink::MemSink;
pub use mem_source::MemSource;
pub use no_memory::NoMemory;
pub use out_buffer::OutBuffer;
pub use outlet::Outlet;
pub use reading::{ReadRefusal, read_all};
pub use sink::Sink;
pub use source::Source;
pub use std_sink::StdSink;
pub use std_source::StdSource;
pub use write_fault::WriteFault;
pub use writing::write_all;
