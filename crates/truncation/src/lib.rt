// Truncations of the file of an update.
// The lent slices are parameters of their own, as `update::Stored` says.
#![tactic(auto)]

ghost use Rattle.std.specs.Prelude.{◌≡◌};
ghost use Rattle.update.specs.Laid.{bufs, laid, Fits, dropped, below_count, grown_to, chopped, tailed, cut_to, resized};
ghost use Rattle.pool.specs.Pool.{PoolFits};
ghost use Rattle.pool.specs.Cache.{CacheFits};

use config::{PAGE_LEN, Refusal};
use meta::ZeroExtent;
use update::{Overlay, Stored};

// Growth, if the size rises. Refused, the size stays.
fn grow_to(
    o: &mut Overlay,
    stored: Stored<'_>,
    frames: &mut [u8],
    numbers: &mut [u64],
    clean: &mut [u8],
    record: &mut [u64],
    size: u64,
) -> Result<(), Refusal>
    requires { Fits 16384 8 o.old (bufs frames.old numbers.old clean.old «record».old) }
    ensures { laid o.new (bufs frames.new numbers.new clean.new «record».new) result
        ≡ grown_to 16384 8 18446744073709551615 stored.entry.image stored.entry.mem.now o.old (bufs frames.old numbers.old clean.old «record».old) size }
{
    let before = o.size;
    if size <= before {
        return Ok(());
    }
    // No `inspect_err`, as `overlay::write_at` says.
    let grown = growth::grow(o, stored, frames, numbers, clean, record, size);
    if grown.is_err() {
        o.size = before;
    }
    grown
}

// The pages from `count` on are dropped, dirty and clean, and the size is set.
fn drop_pages(
    o: &mut Overlay,
    frames: &mut [u8],
    numbers: &mut [u64],
    clean: &mut [u8],
    count: u64,
    size: u64,
)
    requires { PoolFits 16384 o.old.dirty numbers.old frames.old × CacheFits 16384 8 o.old.cache clean.old }
    ensures { dropped o.new frames.new numbers.new clean.new ≡ below_count 16384 8 o.old frames.old numbers.old clean.old count size }
{
    o.dirty = pool::retain_below(numbers, frames, o.dirty, count);
    pool::retain_clean_below(&mut o.cache, clean, count);
    o.size = size;
}

// A cut records "from the new count to the old and drops pages, dirty and cached, from the new count up".
fn chop(
    o: &mut Overlay,
    frames: &mut [u8],
    numbers: &mut [u64],
    clean: &mut [u8],
    record: &mut [u64],
    size: u64,
) -> Result<(), Refusal>
    requires { Fits 16384 8 o.old (bufs frames.old numbers.old clean.old «record».old) }
    ensures { laid o.new (bufs frames.new numbers.new clean.new «record».new) result
        ≡ chopped 16384 8 18446744073709551615 o.old (bufs frames.old numbers.old clean.old «record».old) size }
{
    let last = config::page_count_for_size(size);
    let before = config::page_count_for_size(o.size);
    let dropped = ZeroExtent {
        start: last.0,
        end: before.0,
    };
    o.recorded = pool::push_run(record, o.recorded, dropped)?;
    drop_pages(o, frames, numbers, clean, last.0, size);
    Ok(())
}

// "and ends by making a partial last page dirty and zeroing its tail": what it shares with two functions of `growth` is `touch::zero_part`, as that crate says.
fn zero_tail(
    o: &mut Overlay,
    stored: Stored<'_>,
    frames: &mut [u8],
    numbers: &mut [u64],
    clean: &mut [u8],
    record: &[u64],
    size: u64,
) -> Result<(), Refusal>
    requires { Fits 16384 8 o.old (bufs frames.old numbers.old clean.old «record».now) }
    ensures { laid o.new (bufs frames.new numbers.new clean.new «record».now) result
        ≡ tailed 16384 8 18446744073709551615 stored.entry.image stored.entry.mem.now o.old (bufs frames.old numbers.old clean.old «record».now) size }
{
    let within = config::page_offset(size);
    if within == 0 {
        return Ok(());
    }
    let page = config::page_no(size);
    touch::zero_part(
        o, stored, frames, numbers, clean, record, page.0, within, PAGE_LEN,
    )
}

// The cut and the tail.
fn cut(
    o: &mut Overlay,
    stored: Stored<'_>,
    frames: &mut [u8],
    numbers: &mut [u64],
    clean: &mut [u8],
    record: &mut [u64],
    size: u64,
) -> Result<(), Refusal>
    requires { Fits 16384 8 o.old (bufs frames.old numbers.old clean.old «record».old) }
    ensures { laid o.new (bufs frames.new numbers.new clean.new «record».new) result
        ≡ cut_to 16384 8 18446744073709551615 stored.entry.image stored.entry.mem.now o.old (bufs frames.old numbers.old clean.old «record».old) size }
{
    chop(o, frames, numbers, clean, record, size)?;
    zero_tail(o, stored, frames, numbers, clean, record, size)
}

// Growth, if the size rises, then the cut, then the tail.
pub fn resize(
    o: &mut Overlay,
    stored: Stored<'_>,
    frames: &mut [u8],
    numbers: &mut [u64],
    clean: &mut [u8],
    record: &mut [u64],
    size: u64,
) -> Result<(), Refusal>
    requires { Fits 16384 8 o.old (bufs frames.old numbers.old clean.old «record».old) }
    ensures { laid o.new (bufs frames.new numbers.new clean.new «record».new) result
        ≡ resized 16384 8 18446744073709551615 stored.entry.image stored.entry.mem.now o.old (bufs frames.old numbers.old clean.old «record».old) size }
{
    grow_to(o, stored, frames, numbers, clean, record, size)?;
    cut(o, stored, frames, numbers, clean, record, size)
}
