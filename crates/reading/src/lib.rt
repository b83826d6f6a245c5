// The file as it is seen, of the update if one is open, else of the image: its size, its bytes, a dirty page.
// The lent slices are parameters of their own, as C and the plain file speak of each; a read hands frames and their numbers on as `Frames`.
#![tactic(auto)]

ghost use Rattle.std.specs.Prelude.{◌≡◌};
ghost use Rattle.update.specs.Laid.{bufs};
ghost use Rattle.store.specs.Answers.{answered, Size, Read};
ghost use Rattle.store.specs.Codec.{real_codec};
ghost use Rattle.store.specs.Calls.{file_size, mode_of};
ghost use Rattle.store.specs.Store.{full, dirty_in};
ghost use Rattle.lending.specs.Lending.{Alone, Reads};
ghost use Rattle.reading.specs.Views.{frames_short};

use config::Refusal;
use store::State;
use update::{Frames, Stored};

// Of the update if one is open, else of the image.
pub fn file_size(s: &State) -> u64
    ensures { Alone s.now file_size s.now (Size result) }
{
    if s.updating {
        return s.overlay.size;
    }
    s.block.db_size
}

// "A read is full exactly when it is empty or ends at or before the size, else short"
fn is_full(size: u64, offset: u64, n: usize) -> bool
    ensures { result ≡ full 16384 65536 8 1024 18446744073709551615 real_codec size offset n }
{
    pool::below_size(n, size, offset) == n
}

// All of `dst` is read from `offset` on; "bytes past the size are zeros": whether the read is full. "Only 35 can refuse a read."
pub fn read_at(
    s: &mut State,
    mem: &[u8],
    frames: &[u8],
    numbers: &[u64],
    clean: &mut [u8],
    record: &[u64],
    offset: u64,
    dst: &mut [u8],
) -> Result<bool, Refusal>
    ensures { Reads s.old mem.now (bufs frames.now numbers.now clean.old «record».now) offset dst.old
        s.new (bufs frames.now numbers.now clean.new «record».now) (answered Read result) dst.new }
{
    if !memory::is_lent(mem, s.count) || lending::are_short(s, frames, numbers, clean, record) {
        return Err(Refusal::BufferTooShort);
    }
    let image = image::image_of(s.block);
    let stored = Stored { image, mem };
    if s.updating {
        let frames = Frames {
            bytes: frames,
            numbers,
        };
        return overlay::read_at(&mut s.overlay, stored, frames, clean, record, offset, dst);
    }
    image::read(dst, stored, offset);
    Ok(is_full(s.block.db_size, offset, dst.len()))
}

// 35 for the dirty-page view, which is lent frames and their numbers alone. A view has no answer to refuse with: who shows it asks this first.
pub fn frames_are_short(s: &State, frames: &[u8], numbers: &[u64]) -> bool
    ensures { result ≡ frames_short (mode_of s.now) frames.now numbers.now }
{
    s.updating && touch::frame_count(frames, numbers) < s.overlay.dirty
}

// "is shown to callers as the part of the lent frames that holds it, empty if it is not dirty": so no `Option`.
pub fn dirty_page<'a>(s: &State, frames: &'a [u8], numbers: &[u64], page: u64) -> &'a [u8]
    ensures { result.now ≡ dirty_in 16384 65536 8 1024 18446744073709551615 real_codec (mode_of s.now) frames.now numbers.now page }
{
    if !s.updating {
        return &[];
    }
    overlay::dirty_page(s.overlay, frames, numbers, page)
}
