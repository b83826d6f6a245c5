// The store's calls that open an image and work on an update of it.
ghost use Rattle.std.specs.Prelude.{◌≡◌, []};
ghost use Rattle.update.specs.Laid.{bufs};
ghost use Rattle.store.specs.Calls.{Call, begin, write, truncate, commit, rollback, file_size};
ghost use Rattle.transfer.specs.OnMemory.{lent};
ghost use Rattle.encoding.specs.Called.{called, call, open_called, open_at};
ghost use Rattle.yuharopu.specs.Closures.{IsFullCall};
ghost use Rattle.yuharopu.specs.StoreCalls.{is_set, CallsAlone, AsksAlone, CallsOnBuffers, CallsToRead, shown, dirty_shown};

use crate::transfer_calls;
use config::{Refusal, StablePages};
use store::State;

// The same as `transfer_calls::call_on_memory`, of a call that is lent everything.
fn call_on_all<F>(
    state: &mut [u8],
    mem: &mut [u8],
    frames: &mut [u8],
    numbers: &mut [u64],
    clean: &mut [u8],
    record: &mut [u64],
    work: &mut [u64],
    answer: &mut [u64],
    apply: F,
) -> u64
where
    F: FnOnce(
        &mut State,
        &mut [u8],
        &mut [u8],
        &mut [u64],
        &mut [u8],
        &mut [u64],
        &mut [u64],
    ) -> Result<(), Refusal>,
    requires { F.IsAlwaysCallable apply }
    ensures { (c : Call) → IsFullCall F.FnOnce apply c
        → called result state.new (lent mem.new (bufs frames.new numbers.new clean.new «record».new) work.new) answer.new []
        ≡ call state.old answer.old (lent mem.old (bufs frames.old numbers.old clean.old «record».old) work.old) c }
{
    let Some(mut s) = encoding::given(state, answer) else {
        return encoding::number(Err(Refusal::BufferTooShort));
    };
    let answered = apply(&mut s, mem, frames, numbers, clean, record, work);
    encoding::show(&s, answered, state, answer)
}

pub fn yuharopu_open(state: &mut [u8], mem: &mut [u8], count: u64, answer: &mut [u64]) -> u64
    ensures { open_called result state.new mem.new answer.new ≡ open_at state.old answer.old mem.old count }
{
    transfer_calls::call_on_memory(state, mem, answer, |s, mem| {
        blob::open(s, mem, StablePages(count))
    })
}

// A limit that is not 0 is one.
pub fn yuharopu_begin_update(
    state: &mut [u8],
    limited: u64,
    max_pages: u64,
    max_bytes: u64,
    answer: &mut [u64],
) -> u64
    ensures { CallsAlone state.old answer.old (begin (is_set limited) max_pages max_bytes) result state.new answer.new }
{
    let Some(mut s) = encoding::given(state, answer) else {
        return encoding::number(Err(Refusal::BufferTooShort));
    };
    let answered = blob::begin_update(&mut s, limited != 0, max_pages, max_bytes);
    encoding::show(&s, answered, state, answer)
}

pub fn yuharopu_file_size(state: &[u8], answer: &mut [u64]) -> u64
    ensures { AsksAlone state.now answer.old file_size result answer.new }
{
    let Some(s) = encoding::given(state, answer) else {
        return encoding::number(Err(Refusal::BufferTooShort));
    };
    encoding::tell(Ok(blob::file_size(&s)), answer)
}

pub fn yuharopu_read_at(
    state: &mut [u8],
    mem: &[u8],
    frames: &[u8],
    numbers: &[u64],
    clean: &mut [u8],
    record: &[u64],
    offset: u64,
    dst: &mut [u8],
    answer: &mut [u64],
) -> u64
    ensures { CallsToRead state.old answer.old mem.now (bufs frames.now numbers.now clean.old «record».now) offset dst.old
        result state.new answer.new (bufs frames.now numbers.now clean.new «record».now) dst.new }
{
    let Some(mut s) = encoding::given(state, answer) else {
        return encoding::number(Err(Refusal::BufferTooShort));
    };
    let answered = blob::read_at(&mut s, mem, frames, numbers, clean, record, offset, dst);
    encoding::show(&s, answered, state, answer)
}

pub fn yuharopu_write_at(
    state: &mut [u8],
    mem: &mut [u8],
    frames: &mut [u8],
    numbers: &mut [u64],
    clean: &mut [u8],
    record: &mut [u64],
    work: &mut [u64],
    offset: u64,
    bytes: &[u8],
    answer: &mut [u64],
) -> u64
    ensures { called result state.new (lent mem.new (bufs frames.new numbers.new clean.new «record».new) work.new) answer.new []
        ≡ call state.old answer.old (lent mem.old (bufs frames.old numbers.old clean.old «record».old) work.old) (write offset bytes.now) }
{
    call_on_all(
        state,
        mem,
        frames,
        numbers,
        clean,
        record,
        work,
        answer,
        |s, mem, frames, numbers, clean, record, work| {
            blob::write_at(s, mem, frames, numbers, clean, record, work, offset, bytes)
        },
    )
}

pub fn yuharopu_truncate(
    state: &mut [u8],
    mem: &mut [u8],
    frames: &mut [u8],
    numbers: &mut [u64],
    clean: &mut [u8],
    record: &mut [u64],
    work: &mut [u64],
    size: u64,
    answer: &mut [u64],
) -> u64
    ensures { called result state.new (lent mem.new (bufs frames.new numbers.new clean.new «record».new) work.new) answer.new []
        ≡ call state.old answer.old (lent mem.old (bufs frames.old numbers.old clean.old «record».old) work.old) (truncate size) }
{
    call_on_all(
        state,
        mem,
        frames,
        numbers,
        clean,
        record,
        work,
        answer,
        |s, mem, frames, numbers, clean, record, work| {
            blob::truncate(s, mem, frames, numbers, clean, record, work, size)
        },
    )
}

pub fn yuharopu_commit_update(
    state: &mut [u8],
    mem: &mut [u8],
    frames: &mut [u8],
    numbers: &mut [u64],
    clean: &mut [u8],
    record: &mut [u64],
    work: &mut [u64],
    answer: &mut [u64],
) -> u64
    ensures { called result state.new (lent mem.new (bufs frames.new numbers.new clean.new «record».new) work.new) answer.new []
        ≡ call state.old answer.old (lent mem.old (bufs frames.old numbers.old clean.old «record».old) work.old) commit }
{
    call_on_all(
        state,
        mem,
        frames,
        numbers,
        clean,
        record,
        work,
        answer,
        blob::commit_update,
    )
}

pub fn yuharopu_rollback_update(
    state: &mut [u8],
    frames: &mut [u8],
    numbers: &mut [u64],
    clean: &mut [u8],
    record: &mut [u64],
    answer: &mut [u64],
) -> u64
    ensures { CallsOnBuffers state.old answer.old (bufs frames.old numbers.old clean.old «record».old) rollback
        result state.new answer.new (bufs frames.new numbers.new clean.new «record».new) }
{
    let Some(mut s) = encoding::given(state, answer) else {
        return encoding::number(Err(Refusal::BufferTooShort));
    };
    let answered = blob::rollback_update(&mut s, frames, numbers, clean, record);
    encoding::show(&s, answered, state, answer)
}

// The dirty page goes in front of `dst`, as far as that reaches.
pub fn yuharopu_dirty_page(
    state: &[u8],
    frames: &[u8],
    numbers: &[u64],
    page: u64,
    dst: &mut [u8],
    answer: &mut [u64],
) -> u64
    ensures { shown result answer.new dst.new ≡ dirty_shown state.now answer.old frames.now numbers.now page dst.old }
{
    let Some(s) = encoding::given(state, answer) else {
        return encoding::number(Err(Refusal::BufferTooShort));
    };
    if blob::frames_are_short(&s, frames, numbers) {
        return encoding::number(Err(Refusal::BufferTooShort));
    }
    let bytes = blob::dirty_page(&s, frames, numbers, page);
    memory::copy(dst, bytes);
    encoding::tell(Ok(bytes.len() as u64), answer)
}
