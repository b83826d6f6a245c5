// An overlay as 19 numbers: base_size, size, dirty, recorded, cache.count, the eight cache.pages, limited, max_pages, max_bytes, passed, peak_pages,
// peak_bytes.
ghost use Rattle.std.specs.Prelude.{◌≡◌, ◌≤◌, length};
ghost use Rattle.encoding.specs.StateBytes.{overlay_numbers, overlay_of};

use update::{Budget, CleanCache, Overlay};

// Where the pages of the cache are among them, and where the budget is.
const PAGES: usize = 5;

const BUDGET: usize = PAGES + CleanCache::CAPACITY;

pub const OVERLAY_NUMBERS: usize = BUDGET + 6;

// Not a `From`, here and below: neither an overlay nor an array is a type of this crate.
// Its cache has eight pages, as a caller learns here.
pub fn numbers_of(o: Overlay) -> [u64; OVERLAY_NUMBERS]
    ensures { (result ≡ overlay_numbers o) × (length o.cache.pages ≡ 8) }
{
    let b = o.budget;
    let mut numbers = [0; OVERLAY_NUMBERS];
    numbers[..PAGES].copy_from_slice(&[
        o.base_size,
        o.size,
        o.dirty as u64,
        o.recorded as u64,
        o.cache.count as u64,
    ]);
    numbers[PAGES..BUDGET].copy_from_slice(&o.cache.pages);
    numbers[BUDGET..].copy_from_slice(&[
        u64::from(b.limited),
        b.max_pages,
        b.max_bytes,
        b.passed,
        b.peak_pages,
        b.peak_bytes,
    ]);
    numbers
}

// A limit that is not 0 is one. By places: a pattern of 19 names would say each field twice.
pub fn overlay_of(n: &[u64]) -> Overlay
    requires { 19 ≤ length n.now }
    ensures { result ≡ overlay_of n.now }
{
    let mut pages = [0; CleanCache::CAPACITY];
    pages.copy_from_slice(&n[PAGES..BUDGET]);
    let cache = CleanCache {
        pages,
        count: n[4] as usize,
    };
    let budget = Budget {
        limited: n[BUDGET] != 0,
        max_pages: n[BUDGET + 1],
        max_bytes: n[BUDGET + 2],
        passed: n[BUDGET + 3],
        peak_pages: n[BUDGET + 4],
        peak_bytes: n[BUDGET + 5],
    };
    Overlay {
        base_size: n[0],
        size: n[1],
        dirty: n[2] as usize,
        recorded: n[3] as usize,
        cache,
        budget,
    }
}
