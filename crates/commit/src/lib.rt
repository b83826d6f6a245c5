// The commit: plan, then the end that memory must reach, then the pages in place, then the superblock.
// The pages that it reads are `update::Frames`; the lent slices that it changes are parameters of their own, as `update::Stored` says.
#![tactic(auto)]

ghost use Rattle.std.specs.Prelude.{◌≡◌, ◌+◌, ◌*◌, ◌≤◌, min, ◌∷◌, [], length, take};
ghost use Rattle.config.specs.Pages.{count};
ghost use Rattle.extents.specs.Plan.{below};
ghost use Rattle.extents.specs.Outcome.{room};
ghost use Rattle.meta.specs.Runs.{runs_of, numbers_of};
ghost use Rattle.memory.specs.Growth.{grow_to};
ghost use Rattle.update.specs.Pages.{pages_in};
ghost use Rattle.runs.specs.Flat.{runs_in};
ghost use Rattle.image_runs.specs.Image.{image_runs};
ghost use Rattle.store.specs.Answers.{done};
ghost use Rattle.store.specs.Codec.{real_codec};
ghost use Rattle.store.specs.Plan.{store_plan, required};
ghost use Rattle.store.specs.Store.{write_pages};
ghost use Rattle.commit.specs.Committed.{left_by, outcome, settle_to, publish_to, commit_to};
ghost use Rattle.commit.specs.Held.{Held, Whole};
ghost use Rattle.commit.specs.Reach.{reach};

use config::{PAGE_LEN, Refusal, SQLITE_PAGE_SIZE};
use extents::Change;
use store::State;
use update::{Frames, Overlay};

// Where a page ends in memory, if that is no more than a number.
fn page_end(base: u64, page: u64) -> Option<u64>
    ensures { result ≡ reach (base + (page + 1) * 16384) }
{
    let length = page.checked_add(1)?.checked_mul(SQLITE_PAGE_SIZE)?;
    base.checked_add(length)
}

// The larger of an end so far and the end of a page below `count`; a page from `count` on does not count.
fn further(so_far: u64, base: u64, page: u64, count: u64) -> Option<u64>
    ensures { result ≡ reach (required 16384 base (below count (page ∷ [])) so_far) }
{
    if count <= page {
        return Some(so_far);
    }
    let end = page_end(base, page)?;
    Some(end.max(so_far))
}

// "base + size, and base + (page + 1) × 16,384 for each of those dirty pages": the largest of them.
fn required_end(base: u64, size: u64, numbers: &[u64]) -> Option<u64>
    ensures { result ≡ reach (required 16384 base (below (count 16384 size) numbers.now) (base + size)) }
{
    let pages = config::page_count_for_size(size);
    let end = base.checked_add(size)?;
    numbers
        .iter()
        .try_fold(end, |end, page| further(end, base, *page, pages.0))
}

// Where a page starts in memory, or its length where that is less. `pool::reach` bounds a sum alone, and is of a crate that this one does not know.
fn page_start(base: u64, page: u64, len: usize) -> usize
    ensures { result ≡ min (base + page * 16384) len }
{
    page.saturating_mul(SQLITE_PAGE_SIZE)
        .saturating_add(base)
        .min(len as u64) as usize
}

// "Then those pages are written in place": of these pages those below `count`.
fn write_pages(mem: &mut [u8], base: u64, frames: Frames<'_>, count: u64)
    requires { Whole frames.numbers.now frames.bytes.now }
    ensures { mem.new
        ≡ write_pages 16384 65536 8 1024 18446744073709551615 real_codec base count (pages_in 16384 frames.entry.numbers.now frames.entry.bytes.now) mem.old }
{
    let pages = frames.bytes.chunks_exact(PAGE_LEN);
    for (page, bytes) in frames.numbers.iter().zip(pages) {
        if *page < count {
            let at = page_start(base, *page, mem.len());
            memory::write(mem, at, bytes);
        }
    }
}

// "Last, memory must reach the largest of them. Then those pages are written in place, then the superblock": `runs` are those that remain.
fn publish(
    s: &mut State,
    mem: &mut [u8],
    frames: Frames<'_>,
    runs: &[u64],
    size: u64,
    update: bool,
    end: u64,
) -> Result<(), Refusal>
    requires { Whole frames.numbers.now frames.bytes.now × (numbers_of (runs_of runs.now) ≡ runs.now) }
    ensures left { outcome (left_by s.new (done result)) mem.new
        ≡ publish_to 16384 65536 8 1024 18446744073709551615 real_codec update s.old mem.old size (pages_in 16384 frames.entry.numbers.now frames.entry.bytes.now)
        (runs_of runs.now) (grow_to 65536 s.old.count.0 end mem.old).mem (grow_to 65536 s.old.count.0 end mem.old).growth }
    ensures rest { (s.new.updating ≡ s.old.updating) × (s.new.overlay ≡ s.old.overlay) }
{
    s.count = memory::grow(mem, s.count, end)?;
    let pages = config::page_count_for_size(size);
    write_pages(mem, s.block.db_base_offset, frames, pages.0);
    let block = blocks::after_commit(s.block, update, size, (runs.len() / 2) as u64);
    s.block = block.store(runs, mem);
    Ok(())
}

// 31, 20 and 32 "in this order".
fn settle(
    s: &mut State,
    mem: &mut [u8],
    frames: Frames<'_>,
    record: &[u64],
    work: &mut [u64],
    size: u64,
    update: bool,
) -> Result<(), Refusal>
    requires { Whole frames.numbers.now frames.bytes.now × (room (length frames.numbers.now) ≤ length work.old) }
    ensures left { outcome (left_by s.new (done result)) mem.new
        ≡ settle_to 16384 65536 8 1024 18446744073709551615 real_codec update s.old mem.old size (pages_in 16384 frames.entry.numbers.now frames.entry.bytes.now)
        (store_plan 16384 1024 s.old.block.db_size size (image_runs s.old.block.zero_extent_count mem.old) (runs_of «record».now) frames.entry.numbers.now) }
    ensures rest { (s.new.updating ≡ s.old.updating) × (s.new.overlay ≡ s.old.overlay) }
{
    let block = s.block;
    let image = image_runs::stored(mem, block.zero_extent_count as usize);
    let change = Change {
        old_size: block.db_size,
        new_size: size,
        recorded: record,
        dirty: frames.numbers,
    };
    let count = extents::plan(work, image, change)?;
    let end = required_end(block.db_base_offset, size, frames.numbers).ok_or(
        Refusal::OffsetOverflow,
    )?;
    publish(s, mem, frames, &work[..count * 2], size, update, end)
}

// An update's commit, or a direct call's, without the clearing of its slices: "An overlay without size change, dirty page or record commits as
// accepted and stores no byte".
// `update` is a parameter, though what `conclude`'s callers hand on is `s.updating`: the promise is for either value on any state, and may not shrink.
pub fn commit(
    s: &mut State,
    mem: &mut [u8],
    frames: Frames<'_>,
    record: &[u64],
    work: &mut [u64],
    o: &Overlay,
    update: bool,
) -> Result<(), Refusal>
    requires { Held o.now frames.bytes.now frames.numbers.now «record».now work.old }
    ensures left { outcome (left_by s.new (done result)) mem.new
        ≡ commit_to 16384 65536 8 1024 18446744073709551615 real_codec update s.old mem.old o.now.base_size o.now.size
        (pages_in 16384 (take o.now.dirty frames.entry.numbers.now) frames.entry.bytes.now)
        (runs_in o.now.recorded «record».now) }
    ensures rest { (s.new.updating ≡ s.old.updating) × (s.new.overlay ≡ s.old.overlay) }
{
    if o.is_empty() {
        return Ok(());
    }
    let dirty = Frames {
        numbers: &frames.numbers[..o.dirty],
        ..frames
    };
    let recorded = &record[..o.recorded * 2];
    settle(s, mem, dirty, recorded, work, o.size, update)
}
