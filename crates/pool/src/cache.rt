// The clean cache: eight frames for pages that a read took from the image, the oldest first.
// The cache is a field of the caller's `Overlay` and its frames are lent anew at each call, so a struct of both would be made for each call
// and taken apart in it: `c` and `clean` are parameters of their own, as lent slices are (`update::Stored`).
ghost use Rattle.std.specs.Prelude.{◌≡◌, ℕ, Bool, ◌+◌, ◌*◌, ◌≤◌, length};
ghost use Rattle.meta.specs.Runs.{runs_of};
ghost use Rattle.runs.specs.Sets.{covers};
ghost use Rattle.update.specs.Pages.{keep_below, drop_page};
ghost use Rattle.update.specs.Image.{image_in};
ghost use Rattle.update.specs.Buffers.{cached, settled, clean_pages};
ghost use Rattle.update.specs.Frames.{cache_out, cache_laid, inserted, load_out, load_laid};
ghost use Rattle.pool.specs.Pool.{place_found, Answers, retained_by};
ghost use Rattle.pool.specs.Cache.{CacheFits, room_made};

use crate::{image, pages};
use config::{PAGE_LEN, SQLITE_PAGE_SIZE};
use runs::Numbers;
use update::{CleanCache, Stored};

// A count above eight counts as eight; numbers past it become 0.
pub fn settle(c: &mut CleanCache)
    ensures { c.new ≡ settled 16384 8 c.old }
{
    c.count = c.count.min(CleanCache::CAPACITY);
    memory::fill(&mut c.pages[c.count..], 0);
}

// The place of the frame that `page` is in, if it is cached.
pub fn find_clean(c: &CleanCache, page: u64) -> Option<usize>
    requires { c.now ≡ settled 16384 8 c.now }
    ensures { result ≡ place_found (cached 16384 8 c.now) page }
{
    pages::find(&c.pages[..c.count], page)
}

// The pages that `keep` lets stay.
pub fn retain_clean<F: Fn(u64) -> bool>(c: &mut CleanCache, clean: &mut [u8], keep: F)
    requires callable { F.IsAlwaysCallable keep }
    requires fits { CacheFits 16384 8 c.old clean.old }
    ensures { (p : ℕ → Bool) → Answers (F.post keep) p
        → cache_out c.new clean.new ≡ cache_laid 16384 8 c.old clean.old (retained_by p (clean_pages 16384 8 c.old clean.old)) }
{
    c.count = pages::retain(&mut c.pages, clean, c.count, keep);
}

// The pages below `page` stay.
pub fn retain_clean_below(c: &mut CleanCache, clean: &mut [u8], page: u64)
    requires { CacheFits 16384 8 c.old clean.old }
    ensures { cache_out c.new clean.new ≡ cache_laid 16384 8 c.old clean.old (keep_below page (clean_pages 16384 8 c.old clean.old)) }
{
    retain_clean(c, clean, |number| number < page);
}

// All pages but `page` stay.
pub fn retain_clean_others(c: &mut CleanCache, clean: &mut [u8], page: u64)
    requires { CacheFits 16384 8 c.old clean.old }
    ensures { cache_out c.new clean.new ≡ cache_laid 16384 8 c.old clean.old (drop_page page (clean_pages 16384 8 c.old clean.old)) }
{
    retain_clean(c, clean, |number| number != page);
}

// The oldest goes out if all eight frames are in use, "oldest removed by shifting"; the bytes of its last frame stay.
fn make_room(c: &mut CleanCache, clean: &mut [u8])
    requires { CacheFits 16384 8 c.old clean.old }
    ensures { cache_out c.new clean.new ≡ room_made 16384 8 c.old clean.old }
{
    if c.count < CleanCache::CAPACITY {
        return;
    }
    clean.copy_within(PAGE_LEN..CleanCache::FRAMES_LEN, 0);
    c.pages.copy_within(1..CleanCache::CAPACITY, 0);
    c.pages[CleanCache::CAPACITY - 1] = 0;
    c.count = CleanCache::CAPACITY - 1;
}

// The image's page becomes the youngest of the cache; answered is the place of its frame.
// A page is a bare number, as page numbers that are lent may be any: only the page of an offset, which `config::page_no` gives, has an offset of its own.
pub fn insert(c: &mut CleanCache, clean: &mut [u8], stored: Stored<'_>, page: u64) -> usize
    requires { CacheFits 16384 8 c.old clean.old × (page * 16384 ≤ 18446744073709551615) }
    ensures taken { cache_out c.new clean.new
        ≡ cache_laid 16384 8 c.old clean.old (inserted 16384 8 (image_in 16384 stored.entry.image stored.entry.mem.now) page (clean_pages 16384 8 c.old clean.old)) }
    ensures last { result + 1 ≡ c.new.count }
{
    make_room(c, clean);
    let at = c.count;
    let from = at * PAGE_LEN;
    let end = from + PAGE_LEN;
    image::read_image(&mut clean[from..end], stored, page * SQLITE_PAGE_SIZE);
    c.pages[at] = page;
    c.count = at + 1;
    at
}

// A page that is not dirty is loaded into a frame: zeros if the record covers it, else its clean page, which leaves the cache, else the image's.
pub fn load(
    frame: &mut [u8],
    clean: &mut [u8],
    c: &mut CleanCache,
    stored: Stored<'_>,
    recorded: Numbers<'_>,
    page: u64,
)
    requires { CacheFits 16384 8 c.old clean.old × (length frame.old ≡ 16384) × (page * 16384 ≤ 18446744073709551615) }
    ensures { load_out c.new frame.new clean.new
        ≡ load_laid 16384 8 c.old clean.old (image_in 16384 stored.entry.image stored.entry.mem.now) (covers (runs_of recorded.entry.numbers.now) page) page }
{
    if runs::covers_page(recorded, page) {
        memory::fill(frame, 0);
        return;
    }
    let Some(at) = find_clean(c, page) else {
        image::read_image(frame, stored, page * SQLITE_PAGE_SIZE);
        return;
    };
    let from = at * PAGE_LEN;
    memory::copy(frame, &clean[from..]);
    retain_clean_others(c, clean, page);
}
