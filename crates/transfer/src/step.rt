// How a call begins and ends that is lent memory and no buffers of an update.
ghost use Rattle.std.specs.Prelude.{◌≡◌};
ghost use Rattle.image.specs.Reading.{resealed, restored};
ghost use Rattle.store.specs.Store.{onward};
ghost use Rattle.transfer.specs.Steps.{admission, block_stored};

use config::Refusal;
use meta::Superblock;
use store::State;

// The tests that each of them begins with: 35, then 12.
pub fn admit(s: &State, mem: &[u8]) -> Result<(), Refusal>
    ensures { result ≡ admission s.now mem.now }
{
    if !memory::is_lent(mem, s.count) {
        return Err(Refusal::BufferTooShort);
    }
    if s.updating {
        return Err(Refusal::UpdateInProgress);
    }
    Ok(())
}

// The block is stored, with the image's runs as they are in memory, and becomes the state's.
pub fn restore(s: &mut State, mem: &mut [u8], block: Superblock)
    ensures { block_stored s.new mem.new ≡ block_stored (onward s.old s.old.count.0 (resealed block mem.old)) (restored block mem.old) }
{
    s.block = image::restore(block, mem);
}
