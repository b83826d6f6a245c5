// The ends of an update.
// The lent slices are parameters of their own, as `update::Stored` says.
#![tactic(auto)]

ghost use Rattle.std.specs.Prelude.{◌≡◌, true, [], length};
ghost use Rattle.memory.specs.Bytes.{zeros};
ghost use Rattle.update.specs.Buffers.{view, wiped};
ghost use Rattle.update.specs.Laid.{bufs};
ghost use Rattle.store.specs.Answers.{done};
ghost use Rattle.store.specs.Codec.{real_codec};
ghost use Rattle.store.specs.Calls.{commit, rollback, out};
ghost use Rattle.store.specs.Store.{commit_over, swept};
ghost use Rattle.commit.specs.Held.{Held};
ghost use Rattle.transfer.specs.OnMemory.{lent};
ghost use Rattle.lending.specs.Lending.{calls, OnBuffers};

use config::Refusal;
use store::State;
use update::{Frames, Overlay};

// "its frames, page numbers, clean frames and record, whole, become zeros"; so does the work list.
pub fn clear(
    frames: &mut [u8],
    numbers: &mut [u64],
    clean: &mut [u8],
    record: &mut [u64],
    work: &mut [u64],
)
    ensures { lent [] (bufs frames.new numbers.new clean.new «record».new) work.new
        ≡ lent [] (wiped (bufs frames.old numbers.old clean.old «record».old)) (zeros (length work.old)) }
{
    overlay::wipe(frames, numbers, clean, record);
    memory::fill(work, 0);
}

// The commit of an update, or of a direct call, whose overlay is `o`: then it is over, accepted or not. `update` is a parameter as in `commit::commit`.
pub fn conclude(
    s: &mut State,
    mem: &mut [u8],
    frames: &mut [u8],
    numbers: &mut [u64],
    clean: &mut [u8],
    record: &mut [u64],
    work: &mut [u64],
    o: &Overlay,
    update: bool,
) -> Result<(), Refusal>
    requires { Held o.now frames.old numbers.old «record».old work.old }
    ensures { out s.new (lent mem.new (bufs frames.new numbers.new clean.new «record».new) work.new) (done result) []
        ≡ swept 16384 65536 8 1024 18446744073709551615 real_codec true (commit_over 16384 65536 8 1024 18446744073709551615 real_codec update s.old
        (lent mem.old (bufs frames.old numbers.old clean.old «record».old) work.old) o.now.base_size
        (view 16384 8 o.now (bufs frames.old numbers.old clean.old «record».old))) }
{
    let pages = Frames {
        bytes: frames,
        numbers,
    };
    let answer = commit::commit(s, mem, pages, record, work, o, update);
    clear(frames, numbers, clean, record, work);
    *s = lending::ended(s.count, s.block);
    answer
}

// 35, then 31, 20 and 32. "so does a commit or rollback with no update open": it is accepted.
pub fn commit_update(
    s: &mut State,
    mem: &mut [u8],
    frames: &mut [u8],
    numbers: &mut [u64],
    clean: &mut [u8],
    record: &mut [u64],
    work: &mut [u64],
) -> Result<(), Refusal>
    ensures { out s.new (lent mem.new (bufs frames.new numbers.new clean.new «record».new) work.new) (done result) []
        ≡ calls s.old (lent mem.old (bufs frames.old numbers.old clean.old «record».old) work.old) commit }
{
    if lending::any_is_short(s, mem, frames, numbers, clean, record, work) {
        return Err(Refusal::BufferTooShort);
    }
    if !s.updating {
        memory::fill(work, 0);
        return Ok(());
    }
    let o = s.overlay;
    conclude(s, mem, frames, numbers, clean, record, work, &o, true)
}

// Memory stays; the update's buffers become zeros.
pub fn rollback_update(
    s: &mut State,
    frames: &mut [u8],
    numbers: &mut [u64],
    clean: &mut [u8],
    record: &mut [u64],
) -> Result<(), Refusal>
    ensures { OnBuffers s.old (bufs frames.old numbers.old clean.old «record».old) rollback s.new
        (bufs frames.new numbers.new clean.new «record».new) (done result) }
{
    if lending::are_short(s, frames, numbers, clean, record) {
        return Err(Refusal::BufferTooShort);
    }
    if s.updating {
        overlay::wipe(frames, numbers, clean, record);
        *s = lending::ended(s.count, s.block);
    }
    Ok(())
}
