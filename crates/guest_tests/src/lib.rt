//! Tests of the side of the guest: devices, memory, the loader, the scalar core and the calls of a guest. They use public
//! calls alone, so they stand in a crate of their own: a change of a test proves no library again.
#![tactic(auto)]

#[cfg(test)]
mod adapters;
#[cfg(test)]
mod calls;
#[cfg(test)]
mod files;
#[cfg(test)]
mod images;
#[cfg(test)]
mod logs;
#[cfg(test)]
mod memory;
#[cfg(test)]
mod scalars;
#[cfg(test)]
mod sinks;
#[cfg(test)]
mod sources;
