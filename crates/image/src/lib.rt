// The image in the lent memory: its bytes, its checksum, and its superblock stored anew.
#![tactic(auto)]

ghost use Rattle.std.specs.Prelude.{◌≡◌, ◌+◌, ◌-◌, ◌≤◌, length};
ghost use Rattle.memory.specs.Bytes.{zeros};
ghost use Rattle.fnv.specs.Fnv.{fold as folded};
ghost use Rattle.meta.specs.Stored.{outcome};
ghost use Rattle.update.specs.Lists.{tabulate_from};
ghost use Rattle.update.specs.Image.{image_in, image_part};
ghost use Rattle.pool.specs.Stored.{stored as held};
ghost use Rattle.image.specs.Reading.{image_of, resealed, restored};

use config::PAGE_LEN;
use meta::Superblock;
use pool::Parts;
use runs::RunList;
use update::{Image, Stored};

// Not a `From`: neither type is this crate's.
pub fn image_of(b: Superblock) -> Image
    ensures { result ≡ image_of b }
{
    Image {
        size: b.db_size,
        base: b.db_base_offset,
        runs: b.zero_extent_count as usize,
    }
}

// The bytes from `offset` on, page by page; all of them below the image's size.
fn read_pages(dst: &mut [u8], stored: Stored<'_>, offset: u64)
    requires { offset + length dst.old ≤ 18446744073709551615 }
    ensures { dst.new ≡ tabulate_from offset (length dst.old) (image_in 16384 stored.entry.image stored.entry.mem.now) }
{
    for (at, place) in Parts::of(offset, dst.len()) {
        pool::read_image(&mut dst[place], stored, at);
    }
}

// The image's bytes from `offset` on become all of `dst`; past the size they are zeros.
pub fn read(dst: &mut [u8], stored: Stored<'_>, offset: u64)
    ensures { dst.new ≡ tabulate_from offset (length dst.old) (image_in 16384 stored.entry.image stored.entry.mem.now) }
{
    let n = pool::below_size(dst.len(), stored.image.size, offset);
    read_pages(&mut dst[..n], stored, offset);
    memory::fill(&mut dst[n..], 0);
}

// The checksum `hash`, taken on over as many zeros as `page` has bytes: a whole page of them is one multiplication. `page` is room for bytes, here and below.
fn fold_zeros(hash: u64, page: &mut [u8]) -> u64
    ensures { result ≡ folded hash (zeros (length page.old)) }
{
    if page.len() == PAGE_LEN {
        return fnv::fold_zero_page(hash);
    }
    memory::fill(page, 0);
    meta::fold_fnv1a64(hash, page)
}

// Taken on over the image's bytes from `at` on, as memory holds them: where they lie in it below the size they are not copied first.
fn fold_stored(hash: u64, page: &mut [u8], stored: Stored<'_>, at: u64) -> u64
    ensures { result ≡ folded hash (held stored.entry.image stored.entry.mem.now at (length page.old)) }
{
    if let Some(bytes) = pool::stored_from(stored, at).get(..page.len()) {
        return meta::fold_fnv1a64(hash, bytes);
    }
    pool::read_stored(page, stored, at);
    meta::fold_fnv1a64(hash, page)
}

// Taken on over the image's bytes from `at` on, as those of the page that `at` lies in.
fn fold_part(hash: u64, page: &mut [u8], stored: Stored<'_>, at: u64) -> u64
    ensures { result ≡ folded hash (image_part 16384 stored.entry.image stored.entry.mem.now at (length page.old)) }
{
    let number = config::page_no(at);
    let runs = stored.image.runs;
    if image_runs::image_covers(stored.mem, runs, number.0) {
        return fold_zeros(hash, page);
    }
    fold_stored(hash, page, stored, at)
}

// The checksum `hash`, taken on over the image's bytes `from .. end`, page by page.
pub fn fold(hash: u64, stored: Stored<'_>, from: u64, end: u64) -> u64
    ensures { result ≡ folded hash (tabulate_from from (end - from) (image_in 16384 stored.entry.image stored.entry.mem.now)) }
{
    let mut sum = hash;
    let mut page = [0u8; PAGE_LEN];
    let len = end.saturating_sub(from) as usize;
    // By `for`: the closure of a `fold` would capture the page that it changes.
    for (at, place) in Parts::of(from, len) {
        sum = fold_part(sum, &mut page[..place.len()], stored, at);
    }
    sum
}

// The block goes to the front of memory, with the image's runs as they are there: the block as it is stored.
pub fn restore(b: Superblock, mem: &mut [u8]) -> Superblock
    ensures { outcome result mem.new ≡ outcome (resealed b mem.old) (restored b mem.old) }
{
    let mut runs = [0u64; 2 * Superblock::MAX_ZERO_EXTENTS as usize];
    let stored = image_runs::stored(mem, b.zero_extent_count as usize);
    let used = &mut runs[..stored.count() * 2];
    words::read_into(used, stored.bytes, 0);
    b.store(used, mem)
}
