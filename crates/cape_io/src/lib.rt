//! Where bytes come from, where they go, and the files that words name.
//!
//! Each device counts its faults, so that a caller cannot report a fault that did not happen. Each
//! trait has three forms: over memory with faults at listed calls (`Mem`), over memory without
//! faults (`Sure`), and over the real streams and files (`Std`, `Disk`).
#![tactic(auto)]

mod adapters;
mod counts;
mod devices;
mod files;
mod shelf;
mod sinks;
mod sources;

pub use adapters::{DiskFiles, StdSink, StdSource};
pub use devices::{Failed, Files, Sink, Source};
pub use files::{MemFiles, SureFiles};
pub use sinks::{MemSink, SureSink};
pub use sources::{MemSource, SureSource};
