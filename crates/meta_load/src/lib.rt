// The tests of a superblock's bytes at opening.
#![tactic(auto)]

ghost use Rattle.std.specs.Prelude.{◌≡◌, ◌/◌, ◌≤◌, length};
ghost use Rattle.memory.specs.Bytes.{zeros, overwrite};
ghost use Rattle.fnv.specs.Fnv.{fnv1a64 as hashed};
ghost use Rattle.meta.specs.Block.{checksum_offset};
ghost use Rattle.meta.specs.Runs.{runs_in};
ghost use Rattle.meta.specs.Runs.{normalized as isNormalized};
ghost use Rattle.meta_load.specs.Load.{load as loaded};

use config::Refusal;
use fnv::{fnv1a64, fold_fnv1a64};
use meta::Superblock;
use runs::Stored;

// Whether the whole runs in the bytes are normalized.
pub fn normalized(bytes: &[u8]) -> bool
    ensures { result ≡ isNormalized (runs_in (length bytes.now / 16) bytes.now) }
{
    runs::is_normalized(Stored { bytes })
}

// The hash of a block's bytes, with the checksum field as 0.
fn checksum_of(block: &[u8]) -> u64
    requires { 160 ≤ length block.now }
    ensures { result ≡ hashed (overwrite checksum_offset (zeros 8) block.now) }
{
    let blank = [0u8; 8];
    let at = Superblock::field_offset(Superblock::META_CHECKSUM);
    let before = fnv1a64(&block[..at]);
    let field = fold_fnv1a64(before, &blank);
    fold_fnv1a64(field, &block[Superblock::EXTENTS_OFFSET..])
}

// The superblock in the first bytes of a slice, or 1, 2 or 3.
pub fn load(bytes: &[u8]) -> Result<Superblock, Refusal>
    requires { 16544 ≤ length bytes.now }
    ensures { result ≡ loaded bytes.now }
{
    let block = Superblock::decode(bytes);
    if block.magic != Superblock::MAGIC {
        return Err(Refusal::ForeignStableMemoryImage);
    }
    if block.version != Superblock::VERSION {
        return Err(Refusal::UnsupportedLayoutVersion(u64::from(block.version)));
    }
    if block.layout_version != Superblock::LAYOUT_VERSION {
        return Err(Refusal::UnsupportedLayoutVersion(block.layout_version));
    }
    if Superblock::MAX_ZERO_EXTENTS < block.zero_extent_count {
        return Err(Refusal::MetaChecksumMismatch);
    }
    let encoded = &bytes[..block.encoded_len()];
    if block.meta_checksum != checksum_of(encoded) {
        return Err(Refusal::MetaChecksumMismatch);
    }
    if !normalized(&encoded[Superblock::EXTENTS_OFFSET..]) {
        return Err(Refusal::MetaChecksumMismatch);
    }
    Ok(block)
}
