// Growth of the file of an update. Three functions zero a part of a page that is cut by a size, two here and `truncation::zero_tail`: each has bounds and
// refusals of its own, and what they share is `touch::zero_part`.
// The lent slices are parameters of their own, as `update::Stored` says.
#![tactic(auto)]

ghost use Rattle.std.specs.Prelude.{◌≡◌, ◌<◌};
ghost use Rattle.update.specs.Laid.{bufs, laid, Fits, patched, finished, grown};

use config::{Refusal, SQLITE_PAGE_SIZE};
use meta::ZeroExtent;
use update::{Overlay, Stored};

// A partial old last page is made dirty, and becomes zeros from the old size to its end, or to the new size before it.
fn zero_old_end(
    o: &mut Overlay,
    stored: Stored<'_>,
    frames: &mut [u8],
    numbers: &mut [u64],
    clean: &mut [u8],
    record: &[u64],
    old: u64,
    new: u64,
) -> Result<(), Refusal>
    requires { Fits 16384 8 o.old (bufs frames.old numbers.old clean.old «record».now) × (old < new) }
    ensures { laid o.new (bufs frames.new numbers.new clean.new «record».now) result
        ≡ patched 16384 8 18446744073709551615 stored.entry.image stored.entry.mem.now o.old (bufs frames.old numbers.old clean.old «record».now) old new }
{
    let within = config::page_offset(old);
    if within == 0 {
        return Ok(());
    }
    let page = config::page_no(old);
    let start = page.0 * SQLITE_PAGE_SIZE;
    let next = start
        .checked_add(SQLITE_PAGE_SIZE)
        .ok_or(Refusal::OffsetOverflow)?;
    let end = (new.min(next) - start) as usize;
    touch::zero_part(
        o, stored, frames, numbers, clean, record, page.0, within, end,
    )
}

// Then a partial new last page, unless the old size lies in it; up to the new size it becomes zeros.
fn zero_new_end(
    o: &mut Overlay,
    stored: Stored<'_>,
    frames: &mut [u8],
    numbers: &mut [u64],
    clean: &mut [u8],
    record: &[u64],
    old: u64,
    new: u64,
) -> Result<(), Refusal>
    requires { Fits 16384 8 o.old (bufs frames.old numbers.old clean.old «record».now) × (old < new) }
    ensures { laid o.new (bufs frames.new numbers.new clean.new «record».now) result
        ≡ finished 16384 8 18446744073709551615 stored.entry.image stored.entry.mem.now o.old (bufs frames.old numbers.old clean.old «record».now) old new }
{
    let within = config::page_offset(new);
    if within == 0 {
        return Ok(());
    }
    let page = config::page_no(new);
    let before = config::page_no(old);
    if page == before {
        return Ok(());
    }
    touch::zero_part(o, stored, frames, numbers, clean, record, page.0, 0, within)
}

// The file grows to `new` bytes: the new pages are recorded, then its old and its new end become zeros. Refused, what was done stays, the new size too: the callers put the old one back.
pub fn grow(
    o: &mut Overlay,
    stored: Stored<'_>,
    frames: &mut [u8],
    numbers: &mut [u64],
    clean: &mut [u8],
    record: &mut [u64],
    new: u64,
) -> Result<(), Refusal>
    requires { Fits 16384 8 o.old (bufs frames.old numbers.old clean.old «record».old) × (o.old.size < new) }
    ensures { laid o.new (bufs frames.new numbers.new clean.new «record».new) result
        ≡ grown 16384 8 18446744073709551615 stored.entry.image stored.entry.mem.now o.old (bufs frames.old numbers.old clean.old «record».old) new }
{
    let old = o.size;
    let first = config::page_count_for_size(old);
    let last = config::page_count_for_size(new);
    let added = ZeroExtent {
        start: first.0,
        end: last.0,
    };
    o.recorded = pool::push_run(record, o.recorded, added)?;
    o.size = new;
    zero_old_end(o, stored, frames, numbers, clean, record, old, new)?;
    zero_new_end(o, stored, frames, numbers, clean, record, old, new)
}
