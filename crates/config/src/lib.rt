// Sizes and offsets of an image, counts of its pages, and the refusals.
#![tactic(auto)]

mod refusal;

ghost use Rattle.std.specs.Prelude.{◌≡◌, ◌/◌, ◌%◌};
ghost use Rattle.config.specs.Pages.{count};

pub use refusal::{Numbers, Refusal};

pub const SQLITE_PAGE_SIZE: u64 = 16_384;

// The same, as a length of a slice.
pub const PAGE_LEN: usize = SQLITE_PAGE_SIZE as usize;

pub const STABLE_PAGE_SIZE: u64 = 65_536;

// 01, of config.rs: "superblock at offset 0". Nothing here reads it, as memory starts with the superblock: it stands for callers.
pub const SUPERBLOCK_OFFSET: u64 = 0;

pub const DB_REGION_OFFSET: u64 = 65_536;

// A count of pages of the database; of one page, how many are before it.
#[derive(Clone, Copy, Debug, PartialEq, Eq, PartialOrd, Ord)]
pub struct Pages(pub u64);

// A count of stable pages of memory, never taken for a count of pages.
#[derive(Clone, Copy, Debug, PartialEq, Eq, PartialOrd, Ord)]
pub struct StablePages(pub u64);

// The pages that `size` bytes of the database need.
#[tactic(auto, unfolding(crate::specs::Pages::count))]
pub fn page_count_for_size(size: u64) -> Pages
    ensures { result.0 ≡ count 16384 size }
{
    Pages(size.div_ceil(SQLITE_PAGE_SIZE))
}

// The page in which a byte offset of the database lies.
pub fn page_no(offset: u64) -> Pages
    ensures { result.0 ≡ offset / 16384 }
{
    Pages(offset / SQLITE_PAGE_SIZE)
}

// Its place in that page.
pub fn page_offset(offset: u64) -> usize
    ensures { result ≡ offset % 16384 }
{
    (offset % SQLITE_PAGE_SIZE) as usize
}

// The stable pages that `bytes` bytes of memory need.
#[tactic(auto, unfolding(crate::specs::Pages::count))]
pub fn stable_pages_for(bytes: u64) -> StablePages
    ensures { result.0 ≡ count 65536 bytes }
{
    StablePages(bytes.div_ceil(STABLE_PAGE_SIZE))
}
