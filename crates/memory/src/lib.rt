// Memory is one byte slice that the caller lends. The state says how many of its stable pages are in use; the whole
// stable pages of its length are the ceiling.
#![tactic(auto)]

mod part;

ghost use Rattle.std.specs.Prelude.{◌≡◌, ◌+◌, ◌*◌, ◌/◌, min, length, leb};
ghost use Rattle.memory.specs.Growth.{outcome, grow_to};

use config::{Refusal, STABLE_PAGE_SIZE, StablePages};
pub use part::{copy, fill, fill_at, read, write};

// The stable pages that the lent slice holds.
pub fn ceiling(mem: &[u8]) -> StablePages
    ensures { result.0 ≡ length mem.now / 65536 }
{
    StablePages((mem.len() as u64) / STABLE_PAGE_SIZE)
}

// The bytes of a count of stable pages, as far as a number of 64 bits goes.
pub fn capacity(count: StablePages) -> u64
    ensures { result ≡ min (count.0 * 65536) 18446744073709551615 }
{
    count.0.saturating_mul(STABLE_PAGE_SIZE)
}

// Whether the lent slice holds the current count.
pub fn is_lent(mem: &[u8], count: StablePages) -> bool
    ensures { result ≡ leb (count.0 * 65536) (length mem.now) }
{
    count <= ceiling(mem)
}

// Memory of `count` stable pages grows until it reaches the offset `end`: the new count, or 32.
pub fn grow(mem: &mut [u8], count: StablePages, end: u64) -> Result<StablePages, Refusal>
    ensures { outcome result mem.new ≡ grow_to 65536 count.0 end mem.old }
{
    let required = config::stable_pages_for(end);
    if required <= count {
        return Ok(count);
    }
    let most = ceiling(mem);
    if most < required {
        return Err(Refusal::GrowFailed {
            current: count,
            required,
        });
    }
    let from = (count.0 * STABLE_PAGE_SIZE) as usize;
    let to = (required.0 * STABLE_PAGE_SIZE) as usize;
    fill(&mut mem[from..to], 0);
    Ok(required)
}
