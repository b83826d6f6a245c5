// Export, the checksum, and its refresh.
ghost use Rattle.std.specs.Prelude.{◌≡◌, [], min, max, ◌+◌};
ghost use Rattle.store.specs.Answers.{answered, Exported, Checksum, Refreshed};
ghost use Rattle.store.specs.Calls.{export, checksum, refresh, refresh_step};
ghost use Rattle.store.specs.Codec.{real_codec};
ghost use Rattle.store.specs.Store.{image_sum};
ghost use Rattle.transfer.specs.OnMemory.{OnMemory};
ghost use Rattle.transfer.specs.Steps.{step, step_out, refresh_to, refresh_step_to};

use crate::step;
use config::Refusal;
use meta::{FNV_OFFSET_BASIS, Superblock};
use store::{ChecksumRefresh, State};
use update::Stored;

// "fills the lent buffer up to its length or the size, answers how many bytes it wrote (0 from the size on), and leaves the rest of the buffer"
pub fn export_chunk(s: &State, mem: &[u8], offset: u64, dst: &mut [u8]) -> Result<u64, Refusal>
    ensures { OnMemory s.now mem.now (export offset dst.old) s.now mem.now (answered Exported result) dst.new }
{
    step::admit(s, mem)?;
    let n = pool::below_size(dst.len(), s.block.db_size, offset);
    let image = image::image_of(s.block);
    image::read(&mut dst[..n], Stored { image, mem }, offset);
    Ok(n as u64)
}

fn sum_of(mem: &[u8], block: Superblock) -> u64
    ensures { result ≡ image_sum 16384 65536 8 1024 18446744073709551615 real_codec block mem.now }
{
    let image = image::image_of(block);
    image::fold(FNV_OFFSET_BASIS, Stored { image, mem }, 0, block.db_size)
}

pub fn checksum(s: &State, mem: &[u8]) -> Result<u64, Refusal>
    ensures { OnMemory s.now mem.now checksum s.now mem.now (answered Checksum result) [] }
{
    step::admit(s, mem)?;
    Ok(sum_of(mem, s.block))
}

pub fn refresh_checksum(s: &mut State, mem: &mut [u8]) -> Result<u64, Refusal>
    ensures { OnMemory s.old mem.old refresh s.new mem.new (answered Checksum result) [] }
{
    step::admit(s, mem)?;
    let block = s.block;
    let sum = sum_of(mem, block);
    step::restore(s, mem, blocks::after_refresh(block, sum));
    Ok(sum)
}

// Where a refresh of `n` bytes from `from` on ends: at the size, unless it is past it already.
fn refresh_end(from: u64, n: u64, size: u64) -> u64
    ensures { result ≡ max from (min size (from + n)) }
{
    from.saturating_add(n).min(size).max(from)
}

// Up to `n` bytes of the block's image from `from` on, whose hash so far is `hash`.
fn refresh_from(
    s: &mut State,
    mem: &mut [u8],
    block: Superblock,
    n: u64,
    from: u64,
    hash: u64,
) -> ChecksumRefresh
    ensures { step_out (step s.new (Refreshed result)) mem.new ≡ refresh_to s.old mem.old block n from hash }
{
    let size = block.db_size;
    let end = refresh_end(from, n, size);
    let image = image::image_of(block);
    let sum = image::fold(hash, Stored { image, mem }, from, end);
    let complete = end == size;
    let next = if complete {
        blocks::after_refresh(block, sum)
    } else {
        blocks::after_refresh_step(block, end, sum)
    };
    step::restore(s, mem, next);
    ChecksumRefresh {
        complete,
        checksum: sum,
        scanned_bytes: end,
        db_size: size,
    }
}

// "clears its progress and calls itself, once at most": the falling number is whether progress of an older transaction is still present.
fn refresh_step(s: &mut State, mem: &mut [u8], block: Superblock, n: u64) -> ChecksumRefresh
    ensures { step_out (step s.new (Refreshed result)) mem.new ≡ refresh_step_to s.old mem.old block n }
{
    if !blocks::is_refreshing(block) {
        return refresh_from(s, mem, block, n, 0, FNV_OFFSET_BASIS);
    }
    if block.checksum_refresh_tx_id != block.last_tx_id {
        return refresh_step(s, mem, blocks::without_refresh(block), n);
    }
    let from = block.checksum_refresh_offset;
    let hash = block.checksum_refresh_hash;
    refresh_from(s, mem, block, n, from, hash)
}

// 35, then "12, 25, 10".
pub fn refresh_checksum_chunk(
    s: &mut State,
    mem: &mut [u8],
    n: u64,
) -> Result<ChecksumRefresh, Refusal>
    ensures { OnMemory s.old mem.old (refresh_step n) s.new mem.new (answered Refreshed result) [] }
{
    step::admit(s, mem)?;
    if n == 0 {
        return Err(Refusal::ChecksumRefreshChunkEmpty);
    }
    if blocks::is_importing(s.block) {
        return Err(Refusal::ImportAlreadyStarted);
    }
    let block = s.block;
    Ok(refresh_step(s, mem, block, n))
}
