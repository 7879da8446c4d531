//! The loader: a statically linked ELF executable of 32 bits for RISC-V, and what is laid out of it in memory (System V
//! ABI, chapters 4 and 5). An image is refused by its first fault in a fixed order.
#![tactic(auto)]

mod checking;
mod faults;
mod fields;
mod header_faults;
mod headers;
mod layout;
mod layout_faults;
mod loaded;
mod loading;
mod region_list;
mod regions;
mod segment_faults;
mod spans;

pub use faults::LoadFault;
pub use loaded::Loaded;
pub use loading::load;
pub use region_list::RegionList;
