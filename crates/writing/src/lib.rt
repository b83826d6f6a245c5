// Writes to the file of an update.
// The lent slices are parameters of their own, as `update::Stored` says.
// `offset` and `bytes` are the call's arguments, as 01's write has them, and that their end is a number is tested once, in `overlay::write_at`.
#![tactic(auto)]

ghost use Rattle.std.specs.Prelude.{◌≡◌, true, ◌+◌, ◌/◌, ◌≤◌, length};
ghost use Rattle.update.specs.Pages.{span};
ghost use Rattle.update.specs.Update.{whole_page, copy};
ghost use Rattle.update.specs.Laid.{bufs, laid, Fits, touched_all, puts, wrote};

use config::{PAGE_LEN, Refusal};
use pool::Parts;
use update::{Overlay, Stored};

// The pages that the write has a byte in, from the first, each loaded.
fn write_pages(
    o: &mut Overlay,
    stored: Stored<'_>,
    frames: &mut [u8],
    numbers: &mut [u64],
    clean: &mut [u8],
    record: &[u64],
    offset: u64,
    bytes: &[u8],
) -> Result<(), Refusal>
    requires { Fits 16384 8 o.old (bufs frames.old numbers.old clean.old «record».now) × (offset + length bytes.now ≤ 18446744073709551615) }
    ensures { laid o.new (bufs frames.new numbers.new clean.new «record».now) result
        ≡ touched_all 16384 8 18446744073709551615 stored.entry.image stored.entry.mem.now o.old (bufs frames.old numbers.old clean.old «record».now)
        true (copy 16384 offset bytes.now) (offset / 16384) (span 16384 offset (length bytes.now)) }
{
    for (at, place) in Parts::of(offset, bytes.len()) {
        let part = &bytes[place];
        touch::write_part(o, stored, frames, numbers, clean, record, at, part)?;
    }
    Ok(())
}

// "A full aligned page": the whole write is exactly one aligned page.
fn is_full_page(offset: u64, n: usize) -> bool
    ensures { result ≡ whole_page 16384 offset n }
{
    n == PAGE_LEN && config::page_offset(offset) == 0
}

// One aligned page as a whole, or page by page.
fn put(
    o: &mut Overlay,
    stored: Stored<'_>,
    frames: &mut [u8],
    numbers: &mut [u64],
    clean: &mut [u8],
    record: &[u64],
    offset: u64,
    bytes: &[u8],
) -> Result<(), Refusal>
    requires { Fits 16384 8 o.old (bufs frames.old numbers.old clean.old «record».now) × (offset + length bytes.now ≤ 18446744073709551615) }
    ensures { laid o.new (bufs frames.new numbers.new clean.new «record».now) result
        ≡ puts 16384 8 18446744073709551615 stored.entry.image stored.entry.mem.now o.old (bufs frames.old numbers.old clean.old «record».now) offset bytes.now }
{
    if is_full_page(offset, bytes.len()) {
        let page = config::page_no(offset);
        return touch::write_full_page(o, frames, numbers, page.0, bytes);
    }
    write_pages(o, stored, frames, numbers, clean, record, offset, bytes)
}

// Growth, if the write ends past the size, then its bytes.
pub fn write(
    o: &mut Overlay,
    stored: Stored<'_>,
    frames: &mut [u8],
    numbers: &mut [u64],
    clean: &mut [u8],
    record: &mut [u64],
    offset: u64,
    bytes: &[u8],
) -> Result<(), Refusal>
    requires { Fits 16384 8 o.old (bufs frames.old numbers.old clean.old «record».old) × (offset + length bytes.now ≤ 18446744073709551615) }
    ensures { laid o.new (bufs frames.new numbers.new clean.new «record».new) result
        ≡ wrote 16384 8 18446744073709551615 stored.entry.image stored.entry.mem.now o.old (bufs frames.old numbers.old clean.old «record».old) offset bytes.now }
{
    let end = offset + (bytes.len() as u64);
    if o.size < end {
        growth::grow(o, stored, frames, numbers, clean, record, end)?;
    }
    put(o, stored, frames, numbers, clean, record, offset, bytes)
}
