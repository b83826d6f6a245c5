// Exports and checksums of an image, and how every call begins and ends that is lent memory and no buffers of an update.
// State and memory are two parameters: C lends memory anew at each call, and no two `&mut` behind a `&mut` may be lent at once, as `update::Stored` says.
#![tactic(auto)]

pub mod step;
mod sums;

pub use sums::{checksum, export_chunk, refresh_checksum, refresh_checksum_chunk};
