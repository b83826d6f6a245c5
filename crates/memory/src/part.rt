// Filling and copying, on any places of any slice: what lies past the end of a slice is left out.
ghost use Rattle.std.specs.Prelude.{◌≡◌, length, drop};
ghost use Rattle.memory.specs.Bytes.{zeros, filled, overwrite, resize};

// All of `dst` becomes `value`. By std's `fill` each element but the last becomes a clone, which of a type that is `Copy` need not be the value.
pub fn fill<T: Copy>(dst: &mut [T], value: T)
    ensures { dst.new ≡ filled value (length dst.old) }
{
    dst.fill_with(|| value);
}

// The `n` bytes from `at` on become zeros. It is public, though `read` below alone calls it: what the crate promises may not shrink.
pub fn fill_at(dst: &mut [u8], at: usize, n: usize)
    ensures { dst.new ≡ overwrite at (zeros n) dst.old }
{
    if dst.len() <= at {
        return;
    }
    let end = at + n.min(dst.len() - at);
    fill(&mut dst[at..end], 0);
}

// `src` over the elements of `dst` from `at` on.
pub fn write<T: Copy>(dst: &mut [T], at: usize, src: &[T])
    ensures { dst.new ≡ overwrite at src.now dst.old }
{
    if dst.len() <= at {
        return;
    }
    let n = src.len().min(dst.len() - at);
    dst[at..at + n].copy_from_slice(&src[..n]);
}

// What moves at once. From 2,112 bytes on glibc may move by one instruction: a page took 4.9 µs so where the target lies 4 bytes behind the source modulo 4,096,
// and 437 ns by parts of 512 (docs/BENCHMARKS.md).
const PART: usize = 512;

// All of `src` over the first bytes of `dst`, part by part.
pub fn copy(dst: &mut [u8], src: &[u8])
    ensures { dst.new ≡ overwrite 0 src.now dst.old }
{
    let n = src.len().min(dst.len());
    let mut done = 0;
    // No `for`: of what `chunks_mut` lends a proof knows the length alone, and by `step_by`, which was proved, a copy of 100 bytes took 12.4 ns and not 9.8, one of
    // a page 501 and not 444.
    while done < n {
        let end = done + PART.min(n - done);
        write(&mut dst[done..end], 0, &src[done..end]);
        done = end;
    }
}

// The bytes of `src` from `at` on, with zeros past its end, become all of `dst`.
pub fn read(dst: &mut [u8], src: &[u8], at: usize)
    ensures { dst.new ≡ resize (length dst.old) (drop at src.now) }
{
    let from = at.min(src.len());
    copy(dst, &src[from..]);
    fill_at(dst, src.len() - from, dst.len());
}
