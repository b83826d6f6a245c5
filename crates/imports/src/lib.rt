// Imports.
// State and memory are two parameters, as `transfer` says.
#![tactic(auto)]

ghost use Rattle.std.specs.Prelude.{◌≡◌, ◌+◌, ◌≤◌, [], length, take, drop};
ghost use Rattle.fnv.specs.Fnv.{fnv1a64};
ghost use Rattle.store.specs.Answers.{done};
ghost use Rattle.store.specs.Calls.{import_begin, import_chunk, import_finish, import_cancel};
ghost use Rattle.transfer.specs.OnMemory.{OnMemory};
ghost use Rattle.transfer.specs.Steps.{step, step_out, import_admission, chunk_to};

use config::Refusal;
use store::State;
use transfer::step;

// 35, then "12, 10, 20". The import's base is the end of memory as it is.
pub fn begin_import(s: &mut State, mem: &mut [u8], total: u64, expected: u64) -> Result<(), Refusal>
    ensures { OnMemory s.old mem.old (import_begin total expected) s.new mem.new (done result) [] }
{
    step::admit(s, mem)?;
    let block = s.block;
    if blocks::is_importing(block) {
        return Err(Refusal::ImportAlreadyStarted);
    }
    let base = memory::capacity(s.count);
    if base.checked_add(total).is_none() {
        return Err(Refusal::OffsetOverflow);
    }
    let begun = blocks::after_import_begin(block, total, expected, base);
    step::restore(s, mem, begun);
    Ok(())
}

// The tests that each call on an open import begins with: 35, 12, then 11.
fn admit(s: &State, mem: &[u8]) -> Result<(), Refusal>
    ensures { result ≡ import_admission s.now mem.now }
{
    step::admit(s, mem)?;
    if !blocks::is_importing(s.block) {
        return Err(Refusal::ImportNotStarted);
    }
    Ok(())
}

// The chunk goes to its place, once memory grew; an empty one needs no memory.
fn place_chunk(s: &mut State, mem: &mut [u8], offset: u64, bytes: &[u8]) -> Result<(), Refusal>
    requires { s.old.block.import_base_offset + (offset + length bytes.now) ≤ 18446744073709551615 }
    ensures { step_out (step s.new (done result)) mem.new ≡ chunk_to s.old mem.old offset bytes.now }
{
    let block = s.block;
    let base = block.import_base_offset;
    let end = offset + bytes.len() as u64;
    if !bytes.is_empty() {
        s.count = memory::grow(mem, s.count, base + end)?;
    }
    memory::write(mem, (base + offset) as usize, bytes);
    step::restore(s, mem, blocks::after_import_chunk(block, end));
    Ok(())
}

// 35, then "12, 11, 21, 20, 22, 32".
pub fn import_chunk(s: &mut State, mem: &mut [u8], offset: u64, bytes: &[u8]) -> Result<(), Refusal>
    ensures { OnMemory s.old mem.old (import_chunk offset bytes.now) s.new mem.new (done result) [] }
{
    admit(s, mem)?;
    let block = s.block;
    if offset != block.import_written_until {
        return Err(Refusal::ImportOutOfOrder);
    }
    let n = bytes.len() as u64;
    let end = offset.checked_add(n).ok_or(Refusal::OffsetOverflow)?;
    if block.import_total_size < end {
        return Err(Refusal::ImportOutOfBounds);
    }
    if block.import_base_offset.checked_add(end).is_none() {
        return Err(Refusal::OffsetOverflow);
    }
    place_chunk(s, mem, offset, bytes)
}

// The checksum of `n` bytes from `at` on, as far as memory reaches.
fn sum_of(mem: &[u8], at: u64, n: u64) -> u64
    ensures { result ≡ fnv1a64 (take n (drop at mem.now)) }
{
    let from = at.min(mem.len() as u64) as usize;
    let rest = &mem[from..];
    let count = n.min(rest.len() as u64) as usize;
    meta::fnv1a64(&rest[..count])
}

// 35, then "12, 11, 23, 24": at 24 the import is closed, the rest unchanged.
pub fn finish_import(s: &mut State, mem: &mut [u8]) -> Result<(), Refusal>
    ensures { OnMemory s.old mem.old import_finish s.new mem.new (done result) [] }
{
    admit(s, mem)?;
    let block = s.block;
    if block.import_written_until != block.import_total_size {
        return Err(Refusal::ImportIncomplete);
    }
    let actual = sum_of(mem, block.import_base_offset, block.import_total_size);
    let expected = block.import_expected_checksum;
    if actual != expected {
        step::restore(s, mem, blocks::after_import_cancel(block));
        return Err(Refusal::ChecksumMismatch { expected, actual });
    }
    let finished = blocks::after_import_finish(block, actual);
    s.block = finished.store(&[], mem);
    Ok(())
}

// 35, then "12, 11".
pub fn cancel_import(s: &mut State, mem: &mut [u8]) -> Result<(), Refusal>
    ensures { OnMemory s.old mem.old import_cancel s.new mem.new (done result) [] }
{
    admit(s, mem)?;
    step::restore(s, mem, blocks::after_import_cancel(s.block));
    Ok(())
}
