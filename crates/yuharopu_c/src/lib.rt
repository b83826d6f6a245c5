// What C calls: each function is the one of its name in `yuharopu`, with its promise. A slice passes as a pointer and a number of elements.
#![tactic(auto)]

ghost use Rattle.config.specs.Pages.{count};
ghost use Rattle.encoding.specs.Called.{call, called, open_at, open_called};
ghost use Rattle.fnv.specs.Fnv.{fnv1a64, fold};
ghost use Rattle.std.specs.Prelude.{[], ◌≡◌};
ghost use Rattle.store.specs.Calls.{begin, checksum, commit, export, file_size, rollback, truncate, write};
ghost use Rattle.store.specs.Calls.{import_begin, import_cancel, import_chunk, import_finish, refresh, refresh_step};
ghost use Rattle.transfer.specs.OnMemory.{lent};
ghost use Rattle.update.specs.Laid.{bufs};
ghost use Rattle.yuharopu.specs.Exports.{answer, fresh_fields, grew, grow_pages, load_fields, plan_runs, plans, store_fields};
ghost use Rattle.yuharopu.specs.StoreCalls.{AsksAlone, AsksOnMemory, CallsAlone, CallsOnBuffers, CallsOnMemory, CallsToRead, dirty_shown, is_set, shown};

#[unsafe(no_mangle)]
pub extern "C" fn yuharopu_fnv1a64(bytes: &[u8]) -> u64
    ensures { result ≡ fnv1a64 bytes.now }
{
    yuharopu::yuharopu_fnv1a64(bytes)
}

#[unsafe(no_mangle)]
pub extern "C" fn yuharopu_fold_fnv1a64(hash: u64, bytes: &[u8]) -> u64
    ensures { result ≡ fold hash bytes.now }
{
    yuharopu::yuharopu_fold_fnv1a64(hash, bytes)
}

#[unsafe(no_mangle)]
pub extern "C" fn yuharopu_page_count_for_size(size: u64) -> u64
    ensures { result ≡ count 16384 size }
{
    yuharopu::yuharopu_page_count_for_size(size)
}

#[unsafe(no_mangle)]
pub extern "C" fn yuharopu_grow(mem: &mut [u8], count: u64, end: u64, pages: &mut [u64]) -> u64
    ensures { grew result mem.new pages.new ≡ grow_pages mem.old count end pages.old }
{
    yuharopu::yuharopu_grow(mem, count, end, pages)
}

#[unsafe(no_mangle)]
pub extern "C" fn yuharopu_superblock_fresh(fields: &mut [u64]) -> u64
    ensures { answer result fields.new ≡ fresh_fields fields.old }
{
    yuharopu::yuharopu_superblock_fresh(fields)
}

#[unsafe(no_mangle)]
pub extern "C" fn yuharopu_superblock_load(block: &[u8], fields: &mut [u64]) -> u64
    ensures { answer result fields.new ≡ load_fields block.now fields.old }
{
    yuharopu::yuharopu_superblock_load(block, fields)
}

#[unsafe(no_mangle)]
pub extern "C" fn yuharopu_superblock_store(mem: &mut [u8], fields: &[u64], runs: &[u64]) -> u64
    ensures { answer result mem.new ≡ store_fields mem.old fields.now runs.now }
{
    yuharopu::yuharopu_superblock_store(mem, fields, runs)
}

#[unsafe(no_mangle)]
pub extern "C" fn yuharopu_plan(
    work: &mut [u64],
    extents: &[u64],
    old_size: u64,
    new_size: u64,
    record: &[u64],
    dirty: &[u64],
    answer: &mut [u64],
) -> u64
    ensures { plans result work.new answer.new ≡ plan_runs work.old extents.now old_size new_size «record».now dirty.now answer.old }
{
    yuharopu::yuharopu_plan(work, extents, old_size, new_size, record, dirty, answer)
}

#[unsafe(no_mangle)]
pub extern "C" fn yuharopu_open(
    state: &mut [u8],
    mem: &mut [u8],
    count: u64,
    answer: &mut [u64],
) -> u64
    ensures { open_called result state.new mem.new answer.new ≡ open_at state.old answer.old mem.old count }
{
    yuharopu::yuharopu_open(state, mem, count, answer)
}

#[unsafe(no_mangle)]
pub extern "C" fn yuharopu_begin_update(
    state: &mut [u8],
    limited: u64,
    max_pages: u64,
    max_bytes: u64,
    answer: &mut [u64],
) -> u64
    ensures { CallsAlone state.old answer.old (begin (is_set limited) max_pages max_bytes) result state.new answer.new }
{
    yuharopu::yuharopu_begin_update(state, limited, max_pages, max_bytes, answer)
}

#[unsafe(no_mangle)]
pub extern "C" fn yuharopu_file_size(state: &[u8], answer: &mut [u64]) -> u64
    ensures { AsksAlone state.now answer.old file_size result answer.new }
{
    yuharopu::yuharopu_file_size(state, answer)
}

#[unsafe(no_mangle)]
pub extern "C" fn yuharopu_read_at(
    state: &mut [u8],
    mem: &[u8],
    frames: &[u8],
    numbers: &[u64],
    clean: &mut [u8],
    record: &[u64],
    offset: u64,
    dst: &mut [u8],
    answer: &mut [u64],
) -> u64
    ensures { CallsToRead state.old answer.old mem.now (bufs frames.now numbers.now clean.old «record».now) offset dst.old
        result state.new answer.new (bufs frames.now numbers.now clean.new «record».now) dst.new }
{
    yuharopu::yuharopu_read_at(
        state, mem, frames, numbers, clean, record, offset, dst, answer,
    )
}

#[unsafe(no_mangle)]
pub extern "C" fn yuharopu_write_at(
    state: &mut [u8],
    mem: &mut [u8],
    frames: &mut [u8],
    numbers: &mut [u64],
    clean: &mut [u8],
    record: &mut [u64],
    work: &mut [u64],
    offset: u64,
    bytes: &[u8],
    answer: &mut [u64],
) -> u64
    ensures { called result state.new (lent mem.new (bufs frames.new numbers.new clean.new «record».new) work.new) answer.new []
        ≡ call state.old answer.old (lent mem.old (bufs frames.old numbers.old clean.old «record».old) work.old) (write offset bytes.now) }
{
    yuharopu::yuharopu_write_at(
        state, mem, frames, numbers, clean, record, work, offset, bytes, answer,
    )
}

#[unsafe(no_mangle)]
pub extern "C" fn yuharopu_truncate(
    state: &mut [u8],
    mem: &mut [u8],
    frames: &mut [u8],
    numbers: &mut [u64],
    clean: &mut [u8],
    record: &mut [u64],
    work: &mut [u64],
    size: u64,
    answer: &mut [u64],
) -> u64
    ensures { called result state.new (lent mem.new (bufs frames.new numbers.new clean.new «record».new) work.new) answer.new []
        ≡ call state.old answer.old (lent mem.old (bufs frames.old numbers.old clean.old «record».old) work.old) (truncate size) }
{
    yuharopu::yuharopu_truncate(
        state, mem, frames, numbers, clean, record, work, size, answer,
    )
}

#[unsafe(no_mangle)]
pub extern "C" fn yuharopu_commit_update(
    state: &mut [u8],
    mem: &mut [u8],
    frames: &mut [u8],
    numbers: &mut [u64],
    clean: &mut [u8],
    record: &mut [u64],
    work: &mut [u64],
    answer: &mut [u64],
) -> u64
    ensures { called result state.new (lent mem.new (bufs frames.new numbers.new clean.new «record».new) work.new) answer.new []
        ≡ call state.old answer.old (lent mem.old (bufs frames.old numbers.old clean.old «record».old) work.old) commit }
{
    yuharopu::yuharopu_commit_update(state, mem, frames, numbers, clean, record, work, answer)
}

#[unsafe(no_mangle)]
pub extern "C" fn yuharopu_rollback_update(
    state: &mut [u8],
    frames: &mut [u8],
    numbers: &mut [u64],
    clean: &mut [u8],
    record: &mut [u64],
    answer: &mut [u64],
) -> u64
    ensures { CallsOnBuffers state.old answer.old (bufs frames.old numbers.old clean.old «record».old) rollback
        result state.new answer.new (bufs frames.new numbers.new clean.new «record».new) }
{
    yuharopu::yuharopu_rollback_update(state, frames, numbers, clean, record, answer)
}

#[unsafe(no_mangle)]
pub extern "C" fn yuharopu_dirty_page(
    state: &[u8],
    frames: &[u8],
    numbers: &[u64],
    page: u64,
    dst: &mut [u8],
    answer: &mut [u64],
) -> u64
    ensures { shown result answer.new dst.new ≡ dirty_shown state.now answer.old frames.now numbers.now page dst.old }
{
    yuharopu::yuharopu_dirty_page(state, frames, numbers, page, dst, answer)
}

#[unsafe(no_mangle)]
pub extern "C" fn yuharopu_begin_import(
    state: &mut [u8],
    mem: &mut [u8],
    total: u64,
    expected: u64,
    answer: &mut [u64],
) -> u64
    ensures { CallsOnMemory state.old answer.old mem.old (import_begin total expected) result state.new answer.new mem.new }
{
    yuharopu::yuharopu_begin_import(state, mem, total, expected, answer)
}

#[unsafe(no_mangle)]
pub extern "C" fn yuharopu_import_chunk(
    state: &mut [u8],
    mem: &mut [u8],
    offset: u64,
    bytes: &[u8],
    answer: &mut [u64],
) -> u64
    ensures { CallsOnMemory state.old answer.old mem.old (import_chunk offset bytes.now) result state.new answer.new mem.new }
{
    yuharopu::yuharopu_import_chunk(state, mem, offset, bytes, answer)
}

#[unsafe(no_mangle)]
pub extern "C" fn yuharopu_finish_import(
    state: &mut [u8],
    mem: &mut [u8],
    answer: &mut [u64],
) -> u64
    ensures { CallsOnMemory state.old answer.old mem.old import_finish result state.new answer.new mem.new }
{
    yuharopu::yuharopu_finish_import(state, mem, answer)
}

#[unsafe(no_mangle)]
pub extern "C" fn yuharopu_cancel_import(
    state: &mut [u8],
    mem: &mut [u8],
    answer: &mut [u64],
) -> u64
    ensures { CallsOnMemory state.old answer.old mem.old import_cancel result state.new answer.new mem.new }
{
    yuharopu::yuharopu_cancel_import(state, mem, answer)
}

#[unsafe(no_mangle)]
pub extern "C" fn yuharopu_export_chunk(
    state: &[u8],
    mem: &[u8],
    offset: u64,
    dst: &mut [u8],
    answer: &mut [u64],
) -> u64
    ensures { AsksOnMemory state.now answer.old mem.now (export offset dst.old) result answer.new dst.new }
{
    yuharopu::yuharopu_export_chunk(state, mem, offset, dst, answer)
}

#[unsafe(no_mangle)]
pub extern "C" fn yuharopu_checksum(state: &[u8], mem: &[u8], answer: &mut [u64]) -> u64
    ensures { AsksOnMemory state.now answer.old mem.now checksum result answer.new [] }
{
    yuharopu::yuharopu_checksum(state, mem, answer)
}

#[unsafe(no_mangle)]
pub extern "C" fn yuharopu_refresh_checksum(
    state: &mut [u8],
    mem: &mut [u8],
    answer: &mut [u64],
) -> u64
    ensures { CallsOnMemory state.old answer.old mem.old refresh result state.new answer.new mem.new }
{
    yuharopu::yuharopu_refresh_checksum(state, mem, answer)
}

#[unsafe(no_mangle)]
pub extern "C" fn yuharopu_refresh_checksum_chunk(
    state: &mut [u8],
    mem: &mut [u8],
    n: u64,
    answer: &mut [u64],
) -> u64
    ensures { CallsOnMemory state.old answer.old mem.old (refresh_step n) result state.new answer.new mem.new }
{
    yuharopu::yuharopu_refresh_checksum_chunk(state, mem, n, answer)
}
