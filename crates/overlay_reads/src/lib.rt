// Reads of the file of an update.
// Slices that are lent to be changed are parameters of their own, as `update::Stored` says.
#![tactic(auto)]

ghost use Rattle.std.specs.Prelude.{◌≡◌, true, ◌+◌, ◌-◌, ◌*◌, ◌%◌, ◌≤◌, length, Ok};
ghost use Rattle.update.specs.Image.{image_in};
ghost use Rattle.update.specs.Laid.{bufs, clean_seen, clean_read, Fits};
ghost use Rattle.pool.specs.Cache.{CacheFits};
ghost use Rattle.overlay_reads.specs.Reads.{seen, page_read, range_read, read_at};

use config::{PAGE_LEN, Refusal};
use pool::Parts;
use update::{CleanCache, Frames, Overlay, Stored};

// A page that the overlay has not: from its clean frame, or else from the image, whose page the cache takes up.
fn read_clean(
    c: &mut CleanCache,
    clean: &mut [u8],
    stored: Stored<'_>,
    dst: &mut [u8],
    page: u64,
    within: usize,
)
    requires { CacheFits 16384 8 c.old clean.old × (within + length dst.old ≤ 16384) × (page * 16384 ≤ 18446744073709551615) }
    ensures { clean_seen c.new clean.new dst.new
        ≡ clean_read 16384 8 c.old clean.old (image_in 16384 stored.entry.image stored.entry.mem.now) page within (length dst.old) }
{
    let at = match pool::find_clean(c, page) {
        Some(at) => at,
        None => pool::insert(c, clean, stored, page),
    };
    let from = at * PAGE_LEN + within;
    memory::copy(dst, &clean[from..]);
}

// "A read takes a page from dirty, else zero if the record covers it, else the cache, else the image."
fn read_page(
    o: &mut Overlay,
    stored: Stored<'_>,
    frames: Frames<'_>,
    clean: &mut [u8],
    record: &[u64],
    offset: u64,
    dst: &mut [u8],
)
    requires { Fits 16384 8 o.old (bufs frames.bytes.now frames.numbers.now clean.old «record».now)
        × (offset % 16384 + length dst.old ≤ 16384) }
    ensures { seen o.new (bufs frames.entry.bytes.now frames.entry.numbers.now clean.new «record».now) dst.new (Ok true)
        ≡ page_read 16384 8 stored.entry.image stored.entry.mem.now o.old
        (bufs frames.entry.bytes.now frames.entry.numbers.now clean.old «record».now) offset (length dst.old) }
{
    let page = config::page_no(offset);
    let within = config::page_offset(offset);
    if let Some(at) = pool::find(&frames.numbers[..o.dirty], page.0) {
        let from = at * PAGE_LEN + within;
        memory::copy(dst, &frames.bytes[from..]);
    } else if runs::covered(record, o.recorded, page.0) {
        memory::fill(dst, 0);
    } else {
        read_clean(&mut o.cache, clean, stored, dst, page.0, within);
    }
}

// The bytes from `offset` on, page by page; all of them below the size.
fn read_range(
    o: &mut Overlay,
    stored: Stored<'_>,
    frames: Frames<'_>,
    clean: &mut [u8],
    record: &[u64],
    offset: u64,
    dst: &mut [u8],
)
    requires { Fits 16384 8 o.old (bufs frames.bytes.now frames.numbers.now clean.old «record».now)
        × (length dst.old ≤ o.old.size - offset) × (offset + length dst.old ≤ 18446744073709551615) }
    ensures { seen o.new (bufs frames.entry.bytes.now frames.entry.numbers.now clean.new «record».now) dst.new (Ok true)
        ≡ range_read 16384 8 stored.entry.image stored.entry.mem.now o.old
        (bufs frames.entry.bytes.now frames.entry.numbers.now clean.old «record».now) offset (length dst.old) }
{
    for (at, place) in Parts::of(offset, dst.len()) {
        read_page(o, stored, frames, clean, record, at, &mut dst[place]);
    }
}

// A read of all of `dst` from `offset` on. "A read is full exactly when it is empty or ends at or before the size, else short": whether it is full.
// Only 35 can refuse it.
pub fn read_at(
    o: &mut Overlay,
    stored: Stored<'_>,
    frames: Frames<'_>,
    clean: &mut [u8],
    record: &[u64],
    offset: u64,
    dst: &mut [u8],
) -> Result<bool, Refusal>
    ensures { seen o.new (bufs frames.entry.bytes.now frames.entry.numbers.now clean.new «record».now) dst.new result
        ≡ read_at 16384 8 stored.entry.image stored.entry.mem.now o.old (bufs frames.entry.bytes.now frames.entry.numbers.now clean.old «record».now) offset dst.old }
{
    if buffers::are_short(*o, frames.bytes, frames.numbers, clean, record) {
        return Err(Refusal::BufferTooShort);
    }
    buffers::settle(o);
    let n = pool::below_size(dst.len(), o.size, offset);
    let (below, past) = dst.split_at_mut(n);
    read_range(o, stored, frames, clean, record, offset, below);
    memory::fill(past, 0);
    Ok(past.is_empty())
}
