// Runs in a list of numbers and in bytes. Run `i` of numbers is at places 2i (its start) and 2i + 1 (its end, which is not in it).
ghost use Rattle.std.specs.Prelude.{◌≡◌, ◌+◌, ◌*◌, ◌/◌, ◌<◌, length, take};
ghost use Rattle.meta.specs.Runs.{runs_of};
ghost use Rattle.meta.specs.Runs.{runs_in as stored_in};
ghost use Rattle.runs.specs.Sets.{covers};
ghost use Rattle.runs.specs.Flat.{runs_in, padded, at, put};

use crate::list::{RunList, covers_page};
use meta::{ZeroExtent, read_word};

// Runs in numbers, two numbers a run.
#[derive(Clone, Copy)]
pub struct Numbers<'a> {
    pub numbers: &'a [u64],
}

impl<'a> RunList for Numbers<'a> {
    ghost runs = { λ l. runs_of l.numbers.now };

    fn count(self) -> usize {
        self.numbers.len() / 2
    }

    fn get(self, i: usize) -> ZeroExtent {
        read(self.numbers, i)
    }
}

// Runs in bytes, 16 bytes a run.
#[derive(Clone, Copy)]
pub struct Stored<'a> {
    pub bytes: &'a [u8],
}

impl<'a> RunList for Stored<'a> {
    ghost runs = { λ l. stored_in (length l.bytes.now / 16) l.bytes.now };

    fn count(self) -> usize {
        self.bytes.len() / 16
    }

    fn get(self, i: usize) -> ZeroExtent {
        ZeroExtent {
            start: read_word(self.bytes, i * 16),
            end: read_word(self.bytes, i * 16 + 8),
        }
    }
}

pub fn read(work: &[u64], i: usize) -> ZeroExtent
    requires { i * 2 + 1 < length work.now }
    ensures { result ≡ at work.now i }
{
    ZeroExtent {
        start: work[i * 2],
        end: work[i * 2 + 1],
    }
}

pub fn write(work: &mut [u64], i: usize, run: ZeroExtent)
    requires { i * 2 + 1 < length work.old }
    ensures { work.new ≡ put work.old i run }
{
    work[i * 2] = run.start;
    work[i * 2 + 1] = run.end;
}

// The first `count` runs in the numbers, or as many as there are: of a buffer that is lent with room for more, so that the count stands beside it.
pub fn first(numbers: &[u64], count: usize) -> Numbers<'_>
    ensures { runs_of result.numbers.now ≡ runs_in count numbers.now }
{
    let n = count.min(numbers.len() / 2);
    Numbers {
        numbers: &numbers[..n * 2],
    }
}

// Whether one of the first `count` runs has the page: any runs, in any order.
pub fn covered(runs: &[u64], count: usize, page: u64) -> bool
    ensures { result ≡ covers (runs_in count runs.now) page }
{
    covers_page(first(runs, count), page)
}

// The numbers from `from` on become zeros.
pub fn clear(work: &mut [u64], from: usize)
    ensures { work.new ≡ padded (length work.old) (take from work.old) }
{
    let n = from.min(work.len());
    work[n..].fill(0);
}
