// The plan of a commit: which zero runs the image has after it, or that they are too many.
#![tactic(auto)]

ghost use Rattle.std.specs.Prelude.{◌≡◌, ◌+◌, ◌*◌, ◌≤◌, ◌<◌, ◌^◌, [], length};
ghost use Rattle.meta.specs.Runs.{runs_of};
ghost use Rattle.runs.specs.Flat.{runs_in};
ghost use Rattle.page_sets.specs.Lent.{IsSameList};
ghost use Rattle.extents.specs.Plan.{kept, below, additions, add_one, add_each, remove_each, plan as plan_of};
ghost use Rattle.extents.specs.Outcome.{outcome, planned, room, Lent};
ghost use Rattle.extents.specs.Steps.{Within, Stepped, Left, Settled};

use config::Refusal;
use meta::{Superblock, ZeroExtent};
use page_sets::RunSet;
use runs::{Numbers, RunList};

// What a commit brings: it takes the size from `old_size` to `new_size` bytes, `recorded` has the recorded runs and `dirty` the numbers of the dirty pages.
#[derive(Clone, Copy)]
pub struct Change<'a> {
    pub old_size: u64,
    pub new_size: u64,
    pub recorded: &'a [u64],
    pub dirty: &'a [u64],
}

// How long a work list has to be for so many dirty pages: of two numbers a run, one run more than an image can have, and two for each page.
pub fn work_numbers(pages: usize) -> usize
    requires { room pages < 2 ^ 64 }
    ensures { result ≡ room pages }
{
    (Superblock::MAX_ZERO_EXTENTS as usize + 1 + pages * 2) * 2
}

// How many of the page numbers are below `end`.
fn count_below(dirty: &[u64], end: u64) -> usize
    ensures { result ≡ length (below end dirty.now) }
{
    dirty.iter().filter(|page| **page < end).count()
}

// No methods of a struct of the set and its limit, tried: of the list lent to a set inside a struct the proof of `settle` knew only the length at its end.
// `add_resized` and `add_record` are steps of `settle` alone, which needs the set without its limit before and after, and `add_within` is a step of theirs.

// Adds a run: a set of more than `limit` runs is refused.
fn add_within(set: &mut RunSet<'_>, limit: usize, x: ZeroExtent) -> Result<(), Refusal>
    requires { Within limit set.old.count set.old.work.now }
    ensures same { IsSameList set.old.work set.new.work }
    ensures added { Stepped limit result set.new.count set.new.work.now (add_one limit x (kept (runs_in set.old.count set.old.work.now))) }
{
    set.add(x);
    if limit < set.len() {
        return Err(Refusal::ZeroExtentLimitExceeded);
    }
    Ok(())
}

// Adds the pages by which the size rose or fell, from `old` to `new` bytes: if there are none the run is empty, and adds nothing.
fn add_resized(set: &mut RunSet<'_>, limit: usize, old: u64, new: u64) -> Result<(), Refusal>
    requires { Within limit set.old.count set.old.work.now }
    ensures same { IsSameList set.old.work set.new.work }
    ensures added { Stepped limit result set.new.count set.new.work.now
        (add_each limit (additions 16384 old new []) (kept (runs_in set.old.count set.old.work.now))) }
{
    let was = config::page_count_for_size(old);
    let is = config::page_count_for_size(new);
    let resized = ZeroExtent {
        start: was.0.min(is.0),
        end: was.0.max(is.0),
    };
    add_within(set, limit, resized)
}

// Adds each recorded run, in order.
fn add_record<L: RunList>(set: &mut RunSet<'_>, limit: usize, record: L) -> Result<(), Refusal>
    requires { Within limit set.old.count set.old.work.now }
    ensures same { IsSameList set.old.work set.new.work }
    ensures added { Stepped limit result set.new.count set.new.work.now (add_each limit (L.runs «record») (kept (runs_in set.old.count set.old.work.now))) }
{
    for x in record.iter() {
        add_within(set, limit, x)?;
    }
    Ok(())
}

// Removes the dirty pages below `end`.
fn remove_dirty(set: &mut RunSet<'_>, dirty: &[u64], end: u64)
    requires { (set.old.count + length dirty.now) * 2 ≤ length set.old.work.now }
    ensures same { IsSameList set.old.work set.new.work }
    ensures left { Left (set.old.count + length dirty.now) set.new.count set.new.work.now
        (remove_each (below end dirty.now) (runs_in set.old.count set.old.work.now)) }
{
    for page in dirty {
        if *page < end {
            set.remove(*page);
        }
    }
}

// The additions and the removals, on a set in a work list that has room for them: how many runs remain.
fn settle(set: &mut RunSet<'_>, change: Change<'_>) -> Result<usize, Refusal>
    requires { Lent set.old.count (length change.dirty.now) set.old.work.now }
    ensures same { IsSameList set.old.work set.new.work }
    ensures plan { Settled result set.new.work.now
        (plan_of 16384 1024 change.entry.old_size change.entry.new_size
        (runs_in set.old.count set.old.work.now) (runs_of change.entry.recorded.now) change.entry.dirty.now) }
{
    let end = config::page_count_for_size(change.new_size);
    let limit = Superblock::MAX_ZERO_EXTENTS as usize + count_below(change.dirty, end.0);
    add_resized(set, limit, change.old_size, change.new_size)?;
    let record = Numbers {
        numbers: change.recorded,
    };
    add_record(set, limit, record)?;
    remove_dirty(set, change.dirty, end.0);
    let count = set.len();
    if (Superblock::MAX_ZERO_EXTENTS as usize) < count {
        return Err(Refusal::ZeroExtentLimitExceeded);
    }
    Ok(count)
}

// The plan on an image's runs, any that are no more than 1,024: how many zero runs the image has after the change, which stand in front of the work list; or 31.
// No slice of the list: of a lent list that a result borrows to be read a contract cannot say what it holds at the end, as plan_text's `Parsed`
// says, tried there; and at 31 the list is all zeros, which is promised too.
pub fn plan<L: RunList>(work: &mut [u64], image: L, change: Change<'_>) -> Result<usize, Refusal>
    requires { (length (L.runs image) ≤ 1024) × (room (length change.dirty.now) ≤ length work.old) }
    ensures { outcome result work.new ≡ planned (length work.old)
        (plan_of 16384 1024 change.entry.old_size change.entry.new_size (L.runs image) (runs_of change.entry.recorded.now) change.entry.dirty.now) }
{
    let mut set = RunSet::copy(work, image);
    let answer = settle(&mut set, change);
    // What is not used of the list becomes zeros: at 31 all of it.
    let used = answer.unwrap_or(0);
    runs::clear(work, used * 2);
    answer
}
