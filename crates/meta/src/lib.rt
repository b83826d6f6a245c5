// The superblock of an image, and its checksum.
#![tactic(auto)]

ghost use Rattle.std.specs.Prelude.{◌≡◌, ◌&&◌, leb, ltb};

mod superblock;

pub use fnv::{FNV_OFFSET_BASIS, fnv1a64, fold_fnv1a64};
pub use superblock::Superblock;
pub use words::{read_word, write_word};

// Pages from `start` up to, not including, `end`, that are zeros.
#[derive(Clone, Copy, Debug, PartialEq, Eq)]
pub struct ZeroExtent {
    pub start: u64,
    pub end: u64,
}

impl ZeroExtent {
    // Whether no page is in it, as where it ends before it starts.
    pub fn is_empty(self) -> bool
        ensures { result ≡ leb self.end self.start }
    {
        self.end <= self.start
    }

    pub fn contains(self, page: u64) -> bool
        ensures { result ≡ (leb self.start page && ltb page self.end) }
    {
        self.start <= page && page < self.end
    }
}
