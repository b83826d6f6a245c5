// Writes and truncations, in an update or direct.
ghost use Rattle.std.specs.Prelude.{◌≡◌, []};
ghost use Rattle.update.specs.Laid.{bufs};
ghost use Rattle.store.specs.Answers.{done};
ghost use Rattle.store.specs.Calls.{Call, write, truncate, out};
ghost use Rattle.transfer.specs.OnMemory.{lent};
ghost use Rattle.lending.specs.Lending.{calls};
ghost use Rattle.blob.specs.Change.{IsChange};

use config::Refusal;
use store::State;
use update::{Overlay, Stored};

// 35, then 10 of what `changes` the file and is direct while an import is open, then what `apply` makes of the overlay; a direct change then commits.
fn change<F>(
    s: &mut State,
    mem: &mut [u8],
    frames: &mut [u8],
    numbers: &mut [u64],
    clean: &mut [u8],
    record: &mut [u64],
    work: &mut [u64],
    changes: bool,
    apply: F,
) -> Result<(), Refusal>
where
    F: FnOnce(
        &mut Overlay,
        Stored<'_>,
        &mut [u8],
        &mut [u64],
        &mut [u8],
        &mut [u64],
    ) -> Result<(), Refusal>,
    requires callable { F.IsAlwaysCallable apply }
    requires change { (c : Call) × IsChange F.FnOnce apply s.old (lent mem.old (bufs frames.old numbers.old clean.old «record».old) work.old) changes c }
    ensures { (c : Call) → IsChange F.FnOnce apply s.old (lent mem.old (bufs frames.old numbers.old clean.old «record».old) work.old) changes c
        → out s.new (lent mem.new (bufs frames.new numbers.new clean.new «record».new) work.new) (done result) []
        ≡ calls s.old (lent mem.old (bufs frames.old numbers.old clean.old «record».old) work.old) c }
{
    if lending::any_is_short(s, mem, frames, numbers, clean, record, work) {
        return Err(Refusal::BufferTooShort);
    }
    if settling::import_bars(s, changes) {
        return Err(Refusal::ImportAlreadyStarted);
    }
    let mut o = settling::overlay_of(s);
    let stored = Stored {
        image: image::image_of(s.block),
        mem,
    };
    let verdict = apply(&mut o, stored, frames, numbers, clean, record);
    settling::settle(s, mem, frames, numbers, clean, record, work, &o, verdict)
}

// 35, then 10 of a direct one that is not empty while an import is open, then the tests of a write in the overlay; a direct one then commits.
pub fn write_at(
    s: &mut State,
    mem: &mut [u8],
    frames: &mut [u8],
    numbers: &mut [u64],
    clean: &mut [u8],
    record: &mut [u64],
    work: &mut [u64],
    offset: u64,
    bytes: &[u8],
) -> Result<(), Refusal>
    ensures { out s.new (lent mem.new (bufs frames.new numbers.new clean.new «record».new) work.new) (done result) []
        ≡ calls s.old (lent mem.old (bufs frames.old numbers.old clean.old «record».old) work.old) (write offset bytes.now) }
{
    change(
        s,
        mem,
        frames,
        numbers,
        clean,
        record,
        work,
        !bytes.is_empty(),
        |o, stored, frames, numbers, clean, record| {
            overlay::write_at(o, stored, frames, numbers, clean, record, offset, bytes)
        },
    )
}

// 35, then 10 of a direct one while an import is open, then the tests of a truncation in the overlay; a direct one then commits.
pub fn truncate(
    s: &mut State,
    mem: &mut [u8],
    frames: &mut [u8],
    numbers: &mut [u64],
    clean: &mut [u8],
    record: &mut [u64],
    work: &mut [u64],
    size: u64,
) -> Result<(), Refusal>
    ensures { out s.new (lent mem.new (bufs frames.new numbers.new clean.new «record».new) work.new) (done result) []
        ≡ calls s.old (lent mem.old (bufs frames.old numbers.old clean.old «record».old) work.old) (truncate size) }
{
    change(
        s,
        mem,
        frames,
        numbers,
        clean,
        record,
        work,
        true,
        |o, stored, frames, numbers, clean, record| {
            overlay::truncate(o, stored, frames, numbers, clean, record, size)
        },
    )
}
