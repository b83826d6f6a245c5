// Opening.
ghost use Rattle.std.specs.Prelude.{◌≡◌, ◌+◌, ltb};
ghost use Rattle.memory.specs.Growth.{grow_to};
ghost use Rattle.store.specs.Answers.{Done, done};
ghost use Rattle.store.specs.Codec.{real_codec};
ghost use Rattle.store.specs.Store.{ended};
ghost use Rattle.store.specs.Opening.{no_block, open_fresh, open_image, closing, open'};
ghost use Rattle.opening.specs.Opened.{opened, opened_as, import_outside, outside_of};

use config::{Refusal, STABLE_PAGE_SIZE, StablePages};
use meta::Superblock;
use store::State;

// Whether `n` bytes from `base` on end past `end`.
fn is_past(end: u64, base: u64, n: u64) -> bool
    ensures { result ≡ ltb end (base + n) }
{
    base.checked_add(n).is_none_or(|top| end < top)
}

// 4 of an open import.
fn import_is_outside(b: Superblock, end: u64) -> bool
    ensures { result ≡ import_outside end b }
{
    b.import_base_offset < STABLE_PAGE_SIZE
        || is_past(end, b.import_base_offset, b.import_written_until)
        || b.import_total_size < b.import_written_until
        || b.import_base_offset
            .checked_add(b.import_total_size)
            .is_none()
}

// 4, of memory of `end` bytes.
fn is_outside(b: Superblock, end: u64) -> bool
    ensures { result ≡ outside_of end b }
{
    b.db_base_offset < STABLE_PAGE_SIZE
        || is_past(end, b.db_base_offset, b.db_size)
        || (blocks::is_importing(b) && import_is_outside(b, end))
}

// The state of a refused opening: no image.
fn not_opened(count: StablePages) -> State
    ensures { result ≡ ended 16384 65536 8 1024 18446744073709551615 real_codec count.0 no_block }
{
    lending::ended(count, Superblock::default())
}

// "at count 0 it stores a fresh superblock, or answers 32 if the ceiling is 0"
fn open_fresh(mem: &mut [u8]) -> Result<State, Refusal>
    ensures { opened_as 0 result mem.new
        ≡ open_fresh 16384 65536 8 1024 18446744073709551615 real_codec mem.old (grow_to 65536 0 65536 mem.old).mem (grow_to 65536 0 65536 mem.old).growth }
{
    let count = memory::grow(mem, StablePages(0), STABLE_PAGE_SIZE)?;
    let block = Superblock::fresh();
    let stored = block.store(&[], mem);
    Ok(lending::ended(count, stored))
}

// 01's opening. "Opening is given that count": 35, then 1 to 4.
fn open_image(mem: &mut [u8], count: StablePages) -> Result<State, Refusal>
    ensures { opened_as count.0 result mem.new ≡ open_image 16384 65536 8 1024 18446744073709551615 real_codec count.0 mem.old }
{
    if !memory::is_lent(mem, count) {
        return Err(Refusal::BufferTooShort);
    }
    if count.0 == 0 {
        return open_fresh(mem);
    }
    let block = meta_load::load(mem)?;
    if is_outside(block, memory::capacity(count)) {
        return Err(Refusal::ImageOutOfMemory);
    }
    Ok(lending::ended(count, block))
}

// "closes it as `cancel_import` would" (02, W-202).
fn close_import(s: &mut State, mem: &mut [u8]) -> Result<(), Refusal>
    ensures { opened s.new (done result) mem.new ≡ closing 16384 65536 8 1024 18446744073709551615 real_codec (opened s.old Done mem.old) }
{
    if blocks::is_importing(s.block) {
        return imports::cancel_import(s, mem);
    }
    Ok(())
}

// "An import no longer outlives the opening of the image." (02, W-202) Whatever the state was, it is that of the image, or of none.
pub fn open(s: &mut State, mem: &mut [u8], count: StablePages) -> Result<(), Refusal>
    ensures { opened s.new (done result) mem.new ≡ open' 16384 65536 8 1024 18446744073709551615 real_codec count.0 mem.old }
{
    *s = not_opened(count);
    *s = open_image(mem, count)?;
    close_import(s, mem)
}
