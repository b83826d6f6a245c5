// The store's calls that are lent memory and no buffers of an update.
ghost use Rattle.store.specs.Calls.{Call, import_begin, import_chunk, import_finish, import_cancel, export, checksum, refresh, refresh_step};
ghost use Rattle.std.specs.Prelude.{◌≡◌, ℕ, []};
ghost use Rattle.encoding.specs.Called.{open_called, open_at};
ghost use Rattle.yuharopu.specs.Closures.{IsCall, Opens};
ghost use Rattle.yuharopu.specs.StoreCalls.{CallsOnMemory, AsksOnMemory};

use config::Refusal;
use encoding::Values;
use store::State;

// Takes up the state, makes the call and shows what it left; 35 where `state` has not its length or `answer` is too short.
pub(crate) fn call_on_memory<T: Values, F>(
    state: &mut [u8],
    mem: &mut [u8],
    answer: &mut [u64],
    apply: F,
) -> u64
where
    F: FnOnce(&mut State, &mut [u8]) -> Result<T, Refusal>,
    requires { F.IsAlwaysCallable apply }
    ensures calls { (c : Call) → IsCall F.FnOnce T.answer apply c → CallsOnMemory state.old answer.old mem.old c result state.new answer.new mem.new }
    ensures opens { (n : ℕ) → Opens F.FnOnce T.answer apply n → open_called result state.new mem.new answer.new ≡ open_at state.old answer.old mem.old n }
{
    let Some(mut s) = encoding::given(state, answer) else {
        return encoding::number(Err(Refusal::BufferTooShort));
    };
    let answered = apply(&mut s, mem);
    encoding::show(&s, answered, state, answer)
}

pub fn yuharopu_begin_import(
    state: &mut [u8],
    mem: &mut [u8],
    total: u64,
    expected: u64,
    answer: &mut [u64],
) -> u64
    ensures { CallsOnMemory state.old answer.old mem.old (import_begin total expected) result state.new answer.new mem.new }
{
    call_on_memory(state, mem, answer, |s, mem| {
        blob::begin_import(s, mem, total, expected)
    })
}

pub fn yuharopu_import_chunk(
    state: &mut [u8],
    mem: &mut [u8],
    offset: u64,
    bytes: &[u8],
    answer: &mut [u64],
) -> u64
    ensures { CallsOnMemory state.old answer.old mem.old (import_chunk offset bytes.now) result state.new answer.new mem.new }
{
    call_on_memory(state, mem, answer, |s, mem| {
        blob::import_chunk(s, mem, offset, bytes)
    })
}

pub fn yuharopu_finish_import(state: &mut [u8], mem: &mut [u8], answer: &mut [u64]) -> u64
    ensures { CallsOnMemory state.old answer.old mem.old import_finish result state.new answer.new mem.new }
{
    call_on_memory(state, mem, answer, blob::finish_import)
}

pub fn yuharopu_cancel_import(state: &mut [u8], mem: &mut [u8], answer: &mut [u64]) -> u64
    ensures { CallsOnMemory state.old answer.old mem.old import_cancel result state.new answer.new mem.new }
{
    call_on_memory(state, mem, answer, blob::cancel_import)
}

pub fn yuharopu_export_chunk(
    state: &[u8],
    mem: &[u8],
    offset: u64,
    dst: &mut [u8],
    answer: &mut [u64],
) -> u64
    ensures { AsksOnMemory state.now answer.old mem.now (export offset dst.old) result answer.new dst.new }
{
    let Some(s) = encoding::given(state, answer) else {
        return encoding::number(Err(Refusal::BufferTooShort));
    };
    encoding::tell(blob::export_chunk(&s, mem, offset, dst), answer)
}

pub fn yuharopu_checksum(state: &[u8], mem: &[u8], answer: &mut [u64]) -> u64
    ensures { AsksOnMemory state.now answer.old mem.now checksum result answer.new [] }
{
    let Some(s) = encoding::given(state, answer) else {
        return encoding::number(Err(Refusal::BufferTooShort));
    };
    encoding::tell(blob::checksum(&s, mem), answer)
}

// A closure: by its name alone the function has no contract here, as its module is private to `transfer` (tried).
pub fn yuharopu_refresh_checksum(state: &mut [u8], mem: &mut [u8], answer: &mut [u64]) -> u64
    ensures { CallsOnMemory state.old answer.old mem.old refresh result state.new answer.new mem.new }
{
    call_on_memory(state, mem, answer, |s, mem| blob::refresh_checksum(s, mem))
}

pub fn yuharopu_refresh_checksum_chunk(
    state: &mut [u8],
    mem: &mut [u8],
    n: u64,
    answer: &mut [u64],
) -> u64
    ensures { CallsOnMemory state.old answer.old mem.old (refresh_step n) result state.new answer.new mem.new }
{
    call_on_memory(state, mem, answer, |s, mem| {
        blob::refresh_checksum_chunk(s, mem, n)
    })
}
