// The overlay of an update on lent slices: reads, writes and truncations of its file.
// Slices that are lent to be changed are parameters of their own, as `update::Stored` says.
#![tactic(auto)]

mod changing;

pub use buffers::{are_short, dirty_page, wipe};
pub use changing::{truncate, write_at};
pub use overlay_reads::read_at;
