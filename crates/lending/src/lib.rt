// What a call tests first of what it is lent, and the state that an update leaves when it ends.
// The lent slices are parameters of their own, as `update::Stored` and `buffers::are_short` say.
#![tactic(auto)]

ghost use Rattle.std.specs.Prelude.{◌≡◌};
ghost use Rattle.update.specs.Laid.{bufs};
ghost use Rattle.store.specs.Codec.{real_codec};
ghost use Rattle.store.specs.Calls.{mode_of, buffers_short, short, commit};
ghost use Rattle.store.specs.Store.{budget_of, ended};
ghost use Rattle.transfer.specs.OnMemory.{lent};

use config::StablePages;
use meta::Superblock;
use store::State;
use update::{Budget, CleanCache, Overlay};

// A budget of which nothing is used yet. No `Budget::new`: its definition is the call's, in `store`, which stands above `update`.
pub fn budget_of(limited: bool, max_pages: u64, max_bytes: u64) -> Budget
    ensures { result ≡ budget_of limited max_pages max_bytes }
{
    Budget {
        limited,
        max_pages,
        max_bytes,
        ..Budget::default()
    }
}

// No update is open.
pub fn ended(count: StablePages, block: Superblock) -> State
    ensures { result ≡ ended 16384 65536 8 1024 18446744073709551615 real_codec count.0 block }
{
    State {
        count,
        block,
        updating: false,
        overlay: Overlay::new(0, Budget::default()),
    }
}

// 35 for the buffers of an update.
pub fn are_short(s: &State, frames: &[u8], numbers: &[u64], clean: &[u8], record: &[u64]) -> bool
    ensures { result ≡ buffers_short 16384 65536 8 1024 (mode_of s.now) (bufs frames.now numbers.now clean.now «record».now) }
{
    if s.updating {
        return overlay::are_short(s.overlay, frames, numbers, clean, record);
    }
    clean.len() < CleanCache::FRAMES_LEN
}

// 35 for all that a call can be lent.
pub fn any_is_short(
    s: &State,
    mem: &[u8],
    frames: &[u8],
    numbers: &[u64],
    clean: &[u8],
    record: &[u64],
    work: &[u64],
) -> bool
    ensures { result ≡ short 16384 65536 8 1024 s.now (lent mem.now (bufs frames.now numbers.now clean.now «record».now) work.now) commit }
{
    !memory::is_lent(mem, s.count)
        || are_short(s, frames, numbers, clean, record)
        || work.len() < extents::work_numbers(touch::frame_count(frames, numbers))
}
