// The C functions: a host "calls the library through C functions on numbers and byte slices". Each takes any argument; `yuharopu_c` exports
// them. A call that changes memory and is lent no buffers of an update goes by `transfer_calls::call_on_memory`, one that is lent everything by
// `update_calls::call_on_all`. The others take up the state by themselves: file_size, read_at, rollback, begin_update, dirty_page, export_chunk, checksum.
// No two of them are lent the same slices in the same way, and of a slice that a closure captured to fill it a proof would know nothing.
// Numbers stand for marks and kinds, and counts beside slices, as C has them; a refusal becomes its number in `encoding`.
// The lent slices are parameters of their own, as `update::Stored` says.
#![tactic(auto)]

mod transfer_calls;
mod update_calls;

ghost use Rattle.std.specs.Prelude.{◌≡◌};
ghost use Rattle.config.specs.Pages.{count};
ghost use Rattle.fnv.specs.Fnv.{fold, fnv1a64};
ghost use Rattle.store.specs.Answers.{done};
ghost use Rattle.store.specs.Calls.{number};
ghost use Rattle.yuharopu.specs.Exports.{answer, grew, plans, load_fields, fresh_fields, store_fields, grow_pages, plan_runs};

use config::{Refusal, StablePages};
use extents::Change;
use meta::Superblock;
use runs::{Numbers, RunList};
pub use transfer_calls::{
    yuharopu_begin_import, yuharopu_cancel_import, yuharopu_checksum, yuharopu_export_chunk,
    yuharopu_finish_import, yuharopu_import_chunk, yuharopu_refresh_checksum,
    yuharopu_refresh_checksum_chunk,
};
pub use update_calls::{
    yuharopu_begin_update, yuharopu_commit_update, yuharopu_dirty_page, yuharopu_file_size,
    yuharopu_open, yuharopu_read_at, yuharopu_rollback_update, yuharopu_truncate,
    yuharopu_write_at,
};

pub fn yuharopu_fnv1a64(bytes: &[u8]) -> u64
    ensures { result ≡ fnv1a64 bytes.now }
{
    meta::fnv1a64(bytes)
}

pub fn yuharopu_fold_fnv1a64(hash: u64, bytes: &[u8]) -> u64
    ensures { result ≡ fold hash bytes.now }
{
    meta::fold_fnv1a64(hash, bytes)
}

pub fn yuharopu_page_count_for_size(size: u64) -> u64
    ensures { result ≡ count 16384 size }
{
    let pages = config::page_count_for_size(size);
    pages.0
}

pub fn yuharopu_grow(mem: &mut [u8], count: u64, end: u64, pages: &mut [u64]) -> u64
    ensures { grew result mem.new pages.new ≡ grow_pages mem.old count end pages.old }
{
    encoding::number(grow_pages(mem, StablePages(count), end, pages))
}

pub fn yuharopu_superblock_fresh(fields: &mut [u64]) -> u64
    ensures { answer result fields.new ≡ fresh_fields fields.old }
{
    encoding::number(fresh_fields(fields))
}

pub fn yuharopu_superblock_load(block: &[u8], fields: &mut [u64]) -> u64
    ensures { answer result fields.new ≡ load_fields block.now fields.old }
{
    encoding::number(load_fields(block, fields))
}

pub fn yuharopu_superblock_store(mem: &mut [u8], fields: &[u64], runs: &[u64]) -> u64
    ensures { answer result mem.new ≡ store_fields mem.old fields.now runs.now }
{
    encoding::number(store_fields(mem, fields, runs))
}

pub fn yuharopu_plan(
    work: &mut [u64],
    extents: &[u64],
    old_size: u64,
    new_size: u64,
    record: &[u64],
    dirty: &[u64],
    answer: &mut [u64],
) -> u64
    ensures { plans result work.new answer.new ≡ plan_runs work.old extents.now old_size new_size «record».now dirty.now answer.old }
{
    let change = Change {
        old_size,
        new_size,
        recorded: record,
        dirty,
    };
    encoding::number(plan_runs(work, Numbers { numbers: extents }, change, answer))
}

// The two counts, or the two values of the refusal, go in front of `pages`.
fn grow_pages(
    mem: &mut [u8],
    count: StablePages,
    end: u64,
    pages: &mut [u64],
) -> Result<(), Refusal>
    ensures { grew (number (done result)) mem.new pages.new ≡ grow_pages mem.old count.0 end pages.old }
{
    let shown = pages.first_chunk_mut::<2>().ok_or(Refusal::BufferTooShort)?;
    match memory::grow(mem, count, end) {
        Ok(after) => {
            *shown = [count.0, after.0];
            Ok(())
        }
        Err(refusal) => {
            let n = config::Numbers::from(refusal);
            *shown = [n.first, n.second];
            Err(refusal)
        }
    }
}

fn fresh_fields(fields: &mut [u64]) -> Result<(), Refusal>
    ensures { answer (number (done result)) fields.new ≡ fresh_fields fields.old }
{
    let shown = fields.first_chunk_mut().ok_or(Refusal::BufferTooShort)?;
    *shown = Superblock::fresh().numbers();
    Ok(())
}

// Of a refusal its first value, and zeros.
fn load_fields(block: &[u8], fields: &mut [u64]) -> Result<(), Refusal>
    ensures { answer (number (done result)) fields.new ≡ load_fields block.now fields.old }
{
    if block.len() < Superblock::ENCODED_LEN {
        return Err(Refusal::BufferTooShort);
    }
    let shown = fields.first_chunk_mut().ok_or(Refusal::BufferTooShort)?;
    match meta_load::load(block) {
        Ok(loaded) => {
            *shown = loaded.numbers();
            Ok(())
        }
        Err(refusal) => {
            *shown = [0; Superblock::NUMBERS];
            shown[0] = config::Numbers::from(refusal).first;
            Err(refusal)
        }
    }
}

fn store_fields(mem: &mut [u8], fields: &[u64], runs: &[u64]) -> Result<(), Refusal>
    ensures { answer (number (done result)) mem.new ≡ store_fields mem.old fields.now runs.now }
{
    if mem.len() < Superblock::ENCODED_LEN {
        return Err(Refusal::BufferTooShort);
    }
    if fields.len() < Superblock::NUMBERS {
        return Err(Refusal::BufferTooShort);
    }
    let block = Superblock::of_numbers(fields);
    let count = block.zero_extent_count;
    if Superblock::MAX_ZERO_EXTENTS < count {
        return Err(Refusal::ZeroExtentLimitExceeded);
    }
    let runs = runs
        .get(..(count as usize) * 2)
        .ok_or(Refusal::BufferTooShort)?;
    block.store(runs, mem);
    Ok(())
}

fn plan_runs(
    work: &mut [u64],
    image: Numbers<'_>,
    change: Change<'_>,
    answer: &mut [u64],
) -> Result<(), Refusal>
    ensures { plans (number (done result)) work.new answer.new
        ≡ plan_runs work.old image.entry.numbers.now change.entry.old_size change.entry.new_size change.entry.recorded.now change.entry.dirty.now answer.old }
{
    if answer.is_empty() {
        return Err(Refusal::BufferTooShort);
    }
    if (Superblock::MAX_ZERO_EXTENTS as usize) < image.count() {
        return Err(Refusal::BufferTooShort);
    }
    if work.len() < extents::work_numbers(change.dirty.len()) {
        return Err(Refusal::BufferTooShort);
    }
    answer[0] = extents::plan(work, image, change)? as u64;
    Ok(())
}
