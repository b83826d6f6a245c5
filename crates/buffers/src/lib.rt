// The lent slices of an update: frames with their page numbers, clean frames, and the record.
// Slices that are lent to be changed are parameters of their own, as `update::Stored` says.
#![tactic(auto)]

ghost use Rattle.std.specs.Prelude.{◌≡◌};
ghost use Rattle.update.specs.Buffers.{short_buffers, dirty_page, wiped};
ghost use Rattle.update.specs.Laid.{bufs, settle};

use config::PAGE_LEN;
use update::{CleanCache, Overlay};

// Whether a slice is shorter than what it holds, or the clean frames are under eight pages.
// No `Frames` here: callers that hold the slices to change them would make one for this call alone.
#[tactic(auto, unfolding(update::specs::Buffers::short_buffers, update::specs::Buffers::frame_count))]
pub fn are_short(o: Overlay, frames: &[u8], numbers: &[u64], clean: &[u8], record: &[u64]) -> bool
    ensures { result ≡ short_buffers 16384 8 o (bufs frames.now numbers.now clean.now «record».now) }
{
    touch::frame_count(frames, numbers) < o.dirty
        || record.len() / 2 < o.recorded
        || clean.len() < CleanCache::FRAMES_LEN
}

// The overlay as every call leaves it: its cache has no number past its count.
pub fn settle(o: &mut Overlay)
    ensures { o.new ≡ settle 16384 8 o.old }
{
    pool::settle(&mut o.cache);
}

// "A dirty page is shown to callers as the part of the lent frames that holds it, empty if it is not dirty": a part either way, so no `Option`.
// No `Frames`: the part is lent as long as the frames are, and their numbers need not be.
pub fn dirty_page<'a>(o: Overlay, frames: &'a [u8], numbers: &[u64], page: u64) -> &'a [u8]
    ensures { result.now ≡ dirty_page 16384 8 o frames.now numbers.now page }
{
    let (pages, _) = frames.as_chunks::<PAGE_LEN>();
    let used = &numbers[..o.dirty.min(numbers.len())];
    match pool::find(used, page).and_then(|at| pages.get(at)) {
        Some(shown) => shown,
        None => &[],
    }
}

// At the end of an update all of its slices become zeros.
pub fn wipe(frames: &mut [u8], numbers: &mut [u64], clean: &mut [u8], record: &mut [u64])
    ensures { bufs frames.new numbers.new clean.new «record».new ≡ wiped (bufs frames.old numbers.old clean.old «record».old) }
{
    memory::fill(frames, 0);
    memory::fill(numbers, 0);
    memory::fill(clean, 0);
    memory::fill(record, 0);
}
