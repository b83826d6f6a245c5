// Changes of the file of an update.
ghost use Rattle.std.specs.Prelude.{◌≡◌};
ghost use Rattle.update.specs.Laid.{bufs, laid};
ghost use Rattle.overlay.specs.Calls.{write_at, truncate_to};

use config::Refusal;
use update::{Overlay, Stored};

// A write of `bytes` at `offset`: 35, then "20 for its end, 34, 20 for the old last page's end, then page by page 30 and 33". Refused, the size stays.
pub fn write_at(
    o: &mut Overlay,
    stored: Stored<'_>,
    frames: &mut [u8],
    numbers: &mut [u64],
    clean: &mut [u8],
    record: &mut [u64],
    offset: u64,
    bytes: &[u8],
) -> Result<(), Refusal>
    ensures { laid o.new (bufs frames.new numbers.new clean.new «record».new) result
        ≡ write_at 16384 8 18446744073709551615 stored.entry.image stored.entry.mem.now o.old (bufs frames.old numbers.old clean.old «record».old) offset bytes.now }
{
    if buffers::are_short(*o, frames, numbers, clean, record) {
        return Err(Refusal::BufferTooShort);
    }
    buffers::settle(o);
    if bytes.is_empty() {
        return Ok(());
    }
    if offset.checked_add(bytes.len() as u64).is_none() {
        return Err(Refusal::OffsetOverflow);
    }
    let before = o.size;
    // No `inspect_err`, here and in `truncation::grow_to`: a proof would know nothing of the overlay that its closure changed.
    let written = writing::write(o, stored, frames, numbers, clean, record, offset, bytes);
    if written.is_err() {
        o.size = before;
    }
    written
}

// A truncation to `size` bytes: 35, then growth, then the cut, then the tail.
pub fn truncate(
    o: &mut Overlay,
    stored: Stored<'_>,
    frames: &mut [u8],
    numbers: &mut [u64],
    clean: &mut [u8],
    record: &mut [u64],
    size: u64,
) -> Result<(), Refusal>
    ensures { laid o.new (bufs frames.new numbers.new clean.new «record».new) result
        ≡ truncate_to 16384 8 18446744073709551615 stored.entry.image stored.entry.mem.now o.old (bufs frames.old numbers.old clean.old «record».old) size }
{
    if buffers::are_short(*o, frames, numbers, clean, record) {
        return Err(Refusal::BufferTooShort);
    }
    buffers::settle(o);
    truncation::resize(o, stored, frames, numbers, clean, record, size)
}
