// One page of an update made dirty in the lent frames, and then zeroed or written in part.
// The lent slices are parameters of their own, as `update::Stored` says.
#![tactic(auto)]

ghost use Rattle.std.specs.Prelude.{◌≡◌, true, ◌+◌, ◌*◌, ◌/◌, ◌%◌, ◌≤◌, min, length, take, set, IfOk, OnErr};
ghost use Rattle.update.specs.Pages.{place_of};
ghost use Rattle.update.specs.Update.{blank, copy};
ghost use Rattle.update.specs.Buffers.{frame_count};
ghost use Rattle.update.specs.Admit.{admission, admitted};
ghost use Rattle.update.specs.TouchLaws.{moved};
ghost use Rattle.update.specs.Laid.{bufs, laid, Fits, same, touched, WritesWhole};
ghost use Rattle.touch.specs.Asked.{verdict};

use config::{PAGE_LEN, Refusal};
use update::{Overlay, Stored};

// The frames lent: 16,384 bytes with one entry of the page numbers, the smaller count deciding.
// Two slices, and no `update::Frames`: `take_frame` asks it of numbers that it holds to change.
pub fn frame_count(frames: &[u8], numbers: &[u64]) -> usize
    ensures { result ≡ min (length frames.now / 16384) (length numbers.now) }
{
    (frames.len() / PAGE_LEN).min(numbers.len())
}

// The frame behind the dirty pages' becomes that of one more: its place, or 30 or 33.
fn take_frame(
    o: &mut Overlay,
    frames: &[u8],
    numbers: &mut [u64],
    page: u64,
) -> Result<usize, Refusal>
    requires { o.old.dirty ≤ min (length frames.now / 16384) (length numbers.old) }
    ensures answer { admission o.new.budget (verdict result) ≡ admitted 16384 (min (length frames.now / 16384) (length numbers.old)) o.old.dirty o.old.budget }
    ensures ok { IfOk result (λ at. (at ≡ o.old.dirty)
        × (o.new ≡ moved o.old (o.old.dirty + 1) o.old.cache o.new.budget) × (numbers.new ≡ set numbers.old o.old.dirty page)) }
    ensures err { OnErr result ((o.new ≡ moved o.old o.old.dirty o.old.cache o.new.budget) × (numbers.new ≡ numbers.old)) }
{
    let at = o.dirty;
    o.budget.admit(at, frame_count(frames, numbers))?;
    numbers[at] = page;
    o.dirty = at + 1;
    Ok(at)
}

// The page is made dirty: its place among the dirty pages, or 30 or 33.
// Public, though it is called here alone, as what it promises may not go.
pub fn load_dirty_page(
    o: &mut Overlay,
    stored: Stored<'_>,
    frames: &mut [u8],
    numbers: &mut [u64],
    clean: &mut [u8],
    record: &[u64],
    page: u64,
) -> Result<usize, Refusal>
    requires fits { Fits 16384 8 o.old (bufs frames.old numbers.old clean.old «record».now) }
    requires within { page * 16384 ≤ 18446744073709551615 }
    ensures done { laid o.new (bufs frames.new numbers.new clean.new «record».now) (verdict result)
        ≡ touched 16384 8 18446744073709551615 stored.entry.image stored.entry.mem.now o.old (bufs frames.old numbers.old clean.old «record».now) true same page }
    ensures place { IfOk result (λ at. at ≡ place_of (take o.old.dirty numbers.old) page) }
{
    if let Some(at) = pool::find(&numbers[..o.dirty], page) {
        return Ok(at);
    }
    let at = take_frame(o, frames, numbers, page)?;
    let recorded = runs::first(record, o.recorded);
    let from = at * PAGE_LEN;
    let end = from + PAGE_LEN;
    pool::load(
        &mut frames[from..end],
        clean,
        &mut o.cache,
        stored,
        recorded,
        page,
    );
    Ok(at)
}

// The page is made dirty, and its bytes `from .. to` become zeros.
pub fn zero_part(
    o: &mut Overlay,
    stored: Stored<'_>,
    frames: &mut [u8],
    numbers: &mut [u64],
    clean: &mut [u8],
    record: &[u64],
    page: u64,
    from: usize,
    to: usize,
) -> Result<(), Refusal>
    requires { Fits 16384 8 o.old (bufs frames.old numbers.old clean.old «record».now)
        × ((page * 16384 ≤ 18446744073709551615) × ((from ≤ to) × (to ≤ 16384))) }
    ensures { laid o.new (bufs frames.new numbers.new clean.new «record».now) result
        ≡ touched 16384 8 18446744073709551615 stored.entry.image stored.entry.mem.now o.old (bufs frames.old numbers.old clean.old «record».now)
        true (blank 16384 (page * 16384 + from) (page * 16384 + to)) page }
{
    let at = load_dirty_page(o, stored, frames, numbers, clean, record, page)?;
    let start = at * PAGE_LEN + from;
    let end = at * PAGE_LEN + to;
    memory::fill(&mut frames[start..end], 0);
    Ok(())
}

// The page of `offset` is made dirty, and `bytes` go there, all in that page.
pub fn write_part(
    o: &mut Overlay,
    stored: Stored<'_>,
    frames: &mut [u8],
    numbers: &mut [u64],
    clean: &mut [u8],
    record: &[u64],
    offset: u64,
    bytes: &[u8],
) -> Result<(), Refusal>
    requires { Fits 16384 8 o.old (bufs frames.old numbers.old clean.old «record».now) × (offset % 16384 + length bytes.now ≤ 16384) }
    ensures { laid o.new (bufs frames.new numbers.new clean.new «record».now) result
        ≡ touched 16384 8 18446744073709551615 stored.entry.image stored.entry.mem.now o.old (bufs frames.old numbers.old clean.old «record».now)
        true (copy 16384 offset bytes.now) (offset / 16384) }
{
    let page = config::page_no(offset);
    let within = config::page_offset(offset);
    let at = load_dirty_page(o, stored, frames, numbers, clean, record, page.0)?;
    memory::write(frames, at * PAGE_LEN + within, bytes);
    Ok(())
}

// "A full aligned page is written without loading."
pub fn write_full_page(
    o: &mut Overlay,
    frames: &mut [u8],
    numbers: &mut [u64],
    page: u64,
    bytes: &[u8],
) -> Result<(), Refusal>
    requires { (o.old.dirty ≤ frame_count 16384 (bufs frames.old numbers.old bytes.now numbers.old)) × (length bytes.now ≡ 16384) }
    ensures { WritesWhole 16384 8 18446744073709551615 o.old frames.old numbers.old page bytes.now o.new frames.new numbers.new result }
{
    let at = match pool::find(&numbers[..o.dirty], page) {
        Some(at) => at,
        None => take_frame(o, frames, numbers, page)?,
    };
    memory::write(frames, at * PAGE_LEN, bytes);
    Ok(())
}
