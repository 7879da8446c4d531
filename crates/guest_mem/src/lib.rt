//! Guest memory: pages of 4,096 bytes with permissions, and the break.
#![tactic(auto)]

mod addresses;
mod faults;
mod page_list;
mod pages;
mod permissions;
mod regions;
mod searching;
mod spans;
mod stored_page;

pub use addresses::{PAGE_SIZE, PAGES};
pub use faults::{MemFault, Trap};
pub use pages::Mem;
pub use permissions::Perms;
pub use regions::{ByteList, Region};
pub use spans::Span;
