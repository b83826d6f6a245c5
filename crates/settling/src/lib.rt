// What a write or a truncation starts from and what becomes of it: "A direct call, accepted, is a begin, itself and a commit".
// The lent slices are parameters of their own, as `update::Stored` says.
#![tactic(auto)]

ghost use Rattle.std.specs.Prelude.{◌≡◌, ◌&&◌, []};
ghost use Rattle.update.specs.Laid.{bufs};
ghost use Rattle.store.specs.Answers.{done};
ghost use Rattle.store.specs.Calls.{out, mode_of};
ghost use Rattle.store.specs.Store.{import_bars};
ghost use Rattle.commit.specs.Held.{Held};
ghost use Rattle.transfer.specs.OnMemory.{lent};
ghost use Rattle.settling.specs.Changing.{overlay_now, settled};

use config::Refusal;
use store::State;
use update::Overlay;

// The overlay of the update, or of a direct call, which "has no budget".
pub fn overlay_of(s: &State) -> Overlay
    ensures { result ≡ overlay_now s.now (mode_of s.now) }
{
    if s.updating {
        return s.overlay;
    }
    Overlay::new(s.block.db_size, lending::budget_of(false, 0, 0))
}

// It `changes` the file, would be direct, and an import is open.
pub fn import_bars(s: &State, changes: bool) -> bool
    ensures { result ≡ (changes && import_bars s.now) }
{
    changes && !s.updating && blocks::is_importing(s.block)
}

// What becomes of a change that left the overlay `o`: in an update it stays in the buffers; a direct one is committed, or refused it leaves memory unchanged
// and zeros in the buffers.
pub fn settle(
    s: &mut State,
    mem: &mut [u8],
    frames: &mut [u8],
    numbers: &mut [u64],
    clean: &mut [u8],
    record: &mut [u64],
    work: &mut [u64],
    o: &Overlay,
    verdict: Result<(), Refusal>,
) -> Result<(), Refusal>
    requires { Held o.now frames.old numbers.old «record».old work.old }
    ensures { out s.new (lent mem.new (bufs frames.new numbers.new clean.new «record».new) work.new) (done result) []
        ≡ settled s.old (lent mem.old (bufs frames.old numbers.old clean.old «record».old) work.old) o.now verdict (mode_of s.old) }
{
    if s.updating {
        memory::fill(work, 0);
        s.overlay = *o;
        return verdict;
    }
    match verdict {
        Ok(()) => committing::conclude(s, mem, frames, numbers, clean, record, work, o, false),
        Err(refusal) => {
            committing::clear(frames, numbers, clean, record, work);
            *s = lending::ended(s.count, s.block);
            Err(refusal)
        }
    }
}
