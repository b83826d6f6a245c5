// The store: an image in lent memory, an update of it, its commit in place. Every call takes any state and any slices.
// The lent slices are parameters of their own, as `update::Stored` says.
#![tactic(auto)]

mod changing;

pub use changing::{truncate, write_at};
pub use committing::{commit_update, rollback_update};
pub use imports::{begin_import, cancel_import, finish_import, import_chunk};
pub use opening::{begin_update, open};
pub use reading::{dirty_page, file_size, frames_are_short, read_at};
pub use transfer::{checksum, export_chunk, refresh_checksum, refresh_checksum_chunk};
