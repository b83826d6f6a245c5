// A pool of pages: frames of 16,384 bytes, one behind the other, and a list of their page numbers.
ghost use Rattle.std.specs.Prelude.{◌≡◌, ◌||◌, ℕ, Bool, eqb, false, fold, position, ◌*◌, ◌+◌, ◌≤◌, ◌<◌, length, take};
ghost use Rattle.update.specs.Pages.{pages_in, keep_below, drop_page};
ghost use Rattle.update.specs.Frames.{pool, relaid};
ghost use Rattle.pool.specs.Pool.{place_found, PoolFits, Answers, retained_by, retained_one, retained_front};

use config::PAGE_LEN;

// How many numbers are compared at once.
const BLOCK: usize = 8;

// Whether the page is one of the block's numbers. The fold has no way out, so that the compiler compares several at once.
fn is_among(block: &[u64; BLOCK], page: u64) -> bool
    ensures { result ≡ fold (λ found n. found || eqb n page) false block.now }
{
    block
        .iter()
        .fold(false, |found, number| found | (*number == page))
}

// The place of `page` among the numbers, one by one.
fn first(numbers: &[u64], page: u64) -> Option<usize>
    ensures { result ≡ position (λ n. eqb n page) numbers.now }
{
    numbers.iter().position(|number| *number == page)
}

// The place of `page` among the numbers, if it is one of them: block by block, and one by one in the block that has it or at the end.
pub fn find(numbers: &[u64], page: u64) -> Option<usize>
    ensures { result ≡ place_found numbers.now page }
{
    let (blocks, _) = numbers.as_chunks::<BLOCK>();
    let whole = blocks
        .iter()
        .position(|block| is_among(block, page))
        .unwrap_or(blocks.len());
    let passed = whole * BLOCK;
    let at = first(&numbers[passed..], page)?;
    Some(passed + at)
}

// The page at place `i` moves down to `to`, if it stays: how many have stayed then.
fn retain_one<F: Fn(u64) -> bool>(
    numbers: &mut [u64],
    frames: &mut [u8],
    i: usize,
    to: usize,
    keep: &F,
) -> usize
    requires callable { F.IsAlwaysCallable keep.now }
    requires places { (to ≤ i) × (i < length numbers.old) × (i * 16384 + 16384 ≤ length frames.old) }
    ensures few { result ≤ to + 1 }
    ensures moved { (p : ℕ → Bool) → Answers (F.post keep.now) p → pool numbers.new frames.new result ≡ retained_one 16384 p numbers.old frames.old i to }
{
    let number = numbers[i];
    if !keep(number) {
        return to;
    }
    if to < i {
        numbers[to] = number;
        let from = i * PAGE_LEN;
        frames.copy_within(from..from + PAGE_LEN, to * PAGE_LEN);
    }
    to + 1
}

// The pages that stay move to the front: how many they are.
// By places, and not by an iterator: pages move within the slices that are walked.
fn retain_front<F: Fn(u64) -> bool>(
    numbers: &mut [u64],
    frames: &mut [u8],
    count: usize,
    keep: &F,
) -> usize
    requires callable { F.IsAlwaysCallable keep.now }
    requires room { PoolFits 16384 count numbers.old frames.old }
    ensures few { result ≤ count }
    ensures moved { (p : ℕ → Bool) → Answers (F.post keep.now) p
        → pool numbers.new frames.new result ≡ retained_front 16384 p count numbers.old frames.old 0 0 }
{
    let mut to = 0;
    for i in 0..count {
        to = retain_one(numbers, frames, i, to, keep);
    }
    to
}

// Of the first `count` pages those that `keep` lets stay move to the front, and the places left over become zeros: how many stay.
pub fn retain<F: Fn(u64) -> bool>(
    numbers: &mut [u64],
    frames: &mut [u8],
    count: usize,
    keep: F,
) -> usize
    requires callable { F.IsAlwaysCallable keep }
    requires room { PoolFits 16384 count numbers.old frames.old }
    ensures { (p : ℕ → Bool) → Answers (F.post keep) p
        → pool numbers.new frames.new result ≡ relaid 16384 count (retained_by p (pages_in 16384 (take count numbers.old) frames.old)) numbers.old frames.old }
{
    let many = retain_front(numbers, frames, count, &keep);
    memory::fill(&mut numbers[many..count], 0);
    let from = many * PAGE_LEN;
    let end = count * PAGE_LEN;
    memory::fill(&mut frames[from..end], 0);
    many
}

// Of the first `count` pages those below `page` move to the front, and the places left over become zeros: how many stay.
pub fn retain_below(numbers: &mut [u64], frames: &mut [u8], count: usize, page: u64) -> usize
    requires { PoolFits 16384 count numbers.old frames.old }
    ensures { pool numbers.new frames.new result
        ≡ relaid 16384 count (keep_below page (pages_in 16384 (take count numbers.old) frames.old)) numbers.old frames.old }
{
    retain(numbers, frames, count, |number| number < page)
}

// The same for all pages but `page`.
pub fn retain_others(numbers: &mut [u64], frames: &mut [u8], count: usize, page: u64) -> usize
    requires { PoolFits 16384 count numbers.old frames.old }
    ensures { pool numbers.new frames.new result
        ≡ relaid 16384 count (drop_page page (pages_in 16384 (take count numbers.old) frames.old)) numbers.old frames.old }
{
    retain(numbers, frames, count, |number| number != page)
}
