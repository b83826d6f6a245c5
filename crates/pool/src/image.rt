// The image's pages, in the lent memory.
ghost use Rattle.std.specs.Prelude.{◌≡◌, ◌+◌, ◌-◌, min, length, take, drop};
ghost use Rattle.update.specs.Image.{image_part};
ghost use Rattle.pool.specs.Stored.{stored as stored_bytes};

use update::Stored;

// a + b, or `most` where that is less: no sum wraps. It is public, though `stored_from` alone calls it: what the crate promises may not shrink.
pub fn reach(a: u64, b: u64, most: usize) -> usize
    ensures { result ≡ min (a + b) most }
{
    a.saturating_add(b).min(most as u64) as usize
}

// How many of `n` bytes from `offset` on lie below `size`.
pub fn below_size(n: usize, size: u64, offset: u64) -> usize
    ensures { result ≡ min n (size - offset) }
{
    size.saturating_sub(offset).min(n as u64) as usize
}

// The image's bytes from `offset` on, as memory holds them at base + offset: up to the size, or the end of memory.
pub fn stored_from(stored: Stored<'_>, offset: u64) -> &[u8]
    ensures { result.now ≡ take (stored.entry.image.size - offset) (drop (stored.entry.image.base + offset) stored.entry.mem.now) }
{
    let image = stored.image;
    let mem = stored.mem;
    let end = reach(image.base, image.size, mem.len());
    let from = reach(image.base, offset, end);
    &mem[from..end]
}

// Those bytes become all of `dst`, with zeros behind them.
#[tactic(auto, unfolding(crate::specs::Stored::stored))]
pub fn read_stored(dst: &mut [u8], stored: Stored<'_>, offset: u64)
    ensures { dst.new ≡ stored_bytes stored.entry.image stored.entry.mem.now offset (length dst.old) }
{
    memory::read(dst, stored_from(stored, offset), 0);
}

// The image's bytes from `offset` on become all of `dst`, as those of the page that `offset` lies in: zeros if an image run covers it, else what is stored.
pub fn read_image(dst: &mut [u8], stored: Stored<'_>, offset: u64)
    ensures { dst.new ≡ image_part 16384 stored.entry.image stored.entry.mem.now offset (length dst.old) }
{
    let page = config::page_no(offset);
    let runs = stored.image.runs;
    if image_runs::image_covers(stored.mem, runs, page.0) {
        memory::fill(dst, 0);
        return;
    }
    read_stored(dst, stored, offset);
}
