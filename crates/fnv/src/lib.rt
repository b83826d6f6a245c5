// 64-bit FNV-1a.
#![tactic(auto)]

ghost use Rattle.std.specs.Prelude.{◌≡◌};
ghost use Rattle.fnv.specs.Fnv.{fold};
ghost use Rattle.fnv.specs.Fnv.{step as taken};
ghost use Rattle.fnv.specs.Fnv.{fnv1a64 as hashed};
ghost use Rattle.fnv.specs.Zeros.{fold_zeros, all_zeros};

pub const FNV_OFFSET_BASIS: u64 = 0xcbf2_9ce4_8422_2325;

const PRIME: u64 = 0x100_0000_01b3;

// Its powers modulo 2^64: the fifth, and that for a page of 16,384 bytes.
const FIFTH_POWER: u64 = 0xcae_e32a_7d4f_6a63;

const PAGE_POWER: u64 = 0xe196_b542_ec41_0001;

fn step(hash: u64, byte: u8) -> u64
    ensures { result ≡ taken hash byte }
{
    (hash ^ u64::from(byte)).wrapping_mul(PRIME)
}

// The hash taken on over the bytes, one by one.
fn fold_each(hash: u64, bytes: &[u8]) -> u64
    ensures { result ≡ fold hash bytes.now }
{
    bytes.iter().fold(hash, |out, byte| step(out, *byte))
}

// Whether all of the bytes are zeros. The fold has no way out: the compiler joins them, and tests once.
fn are_zeros(bytes: &[u8]) -> bool
    ensures { result ≡ all_zeros bytes.now }
{
    bytes.iter().fold(true, |all, byte| all & (*byte == 0))
}

// Over eight bytes. A number below 2^24, as those of runs mostly are, ends in five zeros.
fn fold_eight(hash: u64, bytes: &[u8; 8]) -> u64
    ensures { result ≡ fold hash bytes.now }
{
    let (front, back) = bytes.split_at(3);
    let three = fold_each(hash, front);
    if are_zeros(back) {
        return three.wrapping_mul(FIFTH_POWER);
    }
    fold_each(three, back)
}

// The hash taken on over the bytes: over two parts as over their join.
pub fn fold_fnv1a64(hash: u64, bytes: &[u8]) -> u64
    ensures { result ≡ fold hash bytes.now }
{
    let (eights, rest) = bytes.as_chunks::<8>();
    let sum = eights.iter().fold(hash, fold_eight);
    fold_each(sum, rest)
}

// The hash taken on over a page of zeros, 16,384 of them.
pub fn fold_zero_page(hash: u64) -> u64
    ensures { result ≡ fold_zeros 16384 hash }
{
    hash.wrapping_mul(PAGE_POWER)
}

pub fn fnv1a64(bytes: &[u8]) -> u64
    ensures { result ≡ hashed bytes.now }
{
    fold_fnv1a64(FNV_OFFSET_BASIS, bytes)
}
