// The image in one lent memory: its state by value.
#![tactic(auto)]

use config::StablePages;
use meta::Superblock;
use update::Overlay;

// Between two calls all of it is here and in the lent slices. The mark and the overlay are no Option: without an update the overlay's numbers, which any caller
// may have made, are unused, but the state's bytes give them back as they came.
#[derive(Clone, Copy, Debug, PartialEq, Eq)]
pub struct State {
    pub count: StablePages,
    pub block: Superblock,
    pub updating: bool,
    pub overlay: Overlay,
}

// How far a refresh of the image's checksum came. The numbers count whether it is complete or not.
#[derive(Clone, Copy, Debug, PartialEq, Eq)]
pub struct ChecksumRefresh {
    pub complete: bool,
    pub checksum: u64,
    pub scanned_bytes: u64,
    pub db_size: u64,
}
