// An update of an image, by value: its numbers. Its pages, their numbers, its record and its clean pages lie in lent slices.
#![tactic(auto)]

mod limits;

ghost use Rattle.std.specs.Prelude.{◌≡◌, ◌&&◌, eqb};

// The image below an update: its size, where it starts in memory, and how many runs it has.
#[derive(Clone, Copy, Debug, PartialEq, Eq)]
pub struct Image {
    pub size: u64,
    pub base: u64,
    pub runs: usize,
}

// The image, and the memory that it lies in.
// Slices that are lent to be changed stay parameters of their own: of a struct of `&mut` slices behind a `&mut` no two may be lent at once
// (tried), and one passed by value is taken apart and made anew at each call (tried), which is no plainer.
#[derive(Clone, Copy)]
pub struct Stored<'a> {
    pub image: Image,
    pub mem: &'a [u8],
}

// Frames of 16,384 bytes, one behind the other, and the numbers of their pages, lent to be read.
#[derive(Clone, Copy)]
pub struct Frames<'a> {
    pub bytes: &'a [u8],
    pub numbers: &'a [u64],
}

// "The cache's page numbers are an array inside its struct": the oldest inserted first. Once a call has settled it, numbers from `count` on are 0.
// The count stands beside the array: any bytes are a state of the C interface, so a count above 8 comes in too.
#[derive(Clone, Copy, Debug, Default, PartialEq, Eq)]
pub struct CleanCache {
    pub pages: [u64; CleanCache::CAPACITY],
    pub count: usize,
}

impl CleanCache {
    // How many pages it holds.
    pub const CAPACITY: usize = 8;

    // How long its frames are.
    pub const FRAMES_LEN: usize = CleanCache::CAPACITY * config::PAGE_LEN;
}

// The budget of an update, if it is limited, and how far it was used.
#[derive(Clone, Copy, Debug, Default, PartialEq, Eq)]
pub struct Budget {
    // A flag beside the limits: any bytes are a state of the C interface, and limits that do not count go out as they came in.
    pub limited: bool,
    pub max_pages: u64,
    pub max_bytes: u64,
    // 0: not passed; 1: passed by pages; 2: passed by bytes. A number, as any other goes out through C as it came in.
    pub passed: u64,
    pub peak_pages: u64,
    pub peak_bytes: u64,
}

#[derive(Clone, Copy, Debug, PartialEq, Eq)]
pub struct Overlay {
    pub base_size: u64,
    pub size: u64,
    // dirty pages, in order of first touch
    pub dirty: usize,
    // entries of the record, in order of push
    pub recorded: usize,
    pub cache: CleanCache,
    pub budget: Budget,
}

ghost use Rattle.update.specs.Update.{fresh};
ghost use Rattle.update.specs.Buffers.{overlay_of};

impl Overlay {
    // An update of an image of `base_size` bytes that has just begun.
    #[tactic(auto, unfolding(crate::specs::Update::fresh, crate::specs::Buffers::overlay_of, memory::specs::Bytes::resize, memory::specs::Bytes::filled))]
    pub fn new(base_size: u64, budget: Budget) -> Self
        ensures { result ≡ overlay_of 16384 8 base_size (fresh 16384 base_size budget) }
    {
        Overlay {
            base_size,
            size: base_size,
            dirty: 0,
            recorded: 0,
            cache: CleanCache::default(),
            budget,
        }
    }

    // The original's `Overlay` has `size` and `dirty_pages`. Nothing here calls them, as the store reads the fields: they stand for callers.
    pub fn size(self) -> u64
        ensures { result ≡ self.size }
    {
        self.size
    }

    // How many pages are dirty.
    pub fn dirty_pages(self) -> usize
        ensures { result ≡ self.dirty }
    {
        self.dirty
    }

    // No size change, no dirty page, no record.
    pub fn is_empty(self) -> bool
        ensures { result ≡ (eqb self.size self.base_size && (eqb self.dirty 0 && eqb self.recorded 0)) }
    {
        self.size == self.base_size && self.dirty == 0 && self.recorded == 0
    }
}
