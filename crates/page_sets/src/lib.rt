// Sets of zero pages, each kept in place as its maximal runs in a list of numbers that the caller lends.
// Nothing is taken from the heap, and the list has room for more runs.
#![tactic(auto)]

ghost use Rattle.std.specs.Prelude.{◌≡◌, true, ◌+◌, ◌*◌, ◌≤◌, ◌<◌, min, max, ◌∷◌, length};
ghost use Rattle.meta.specs.Runs.{run, normalized};
ghost use Rattle.runs.specs.Sets.{merge, maximal, without, piece};
ghost use Rattle.runs.specs.Flat.{runs_in, out, held, laid, at, upto, write, place};
ghost use Rattle.page_sets.specs.Lent.{IsSameList};

use meta::ZeroExtent;
use runs::RunList;

// A set: its maximal runs, the first `count` of the list.
#[derive(Drop)]
pub struct RunSet<'a> {
    work: &'a mut [u64],
    count: usize,
    ghost tidy: { (count * 2 ≤ length work.now) × (normalized (runs_in count work.now) ≡ true) },
}

// The steps on the list take it and the count apart: between their stores the runs are not yet those of a set.

// The run `x` goes in at `i`, and the runs from `i` on move up by one.
fn open(work: &mut [u64], count: usize, i: usize, x: ZeroExtent) -> usize
    requires { (i ≤ count) × (count * 2 + 1 < length work.old) }
    ensures { out work.new result ≡ write work.old i (x ∷ upto work.old i count) }
{
    work.copy_within(i * 2..count * 2, i * 2 + 2);
    runs::write(work, i, x);
    count + 1
}

// The runs from `j` on move down to `o`.
fn close(work: &mut [u64], count: usize, o: usize, j: usize) -> usize
    requires { (o ≤ j) × (j ≤ count) × (count * 2 ≤ length work.old) }
    ensures { out work.new result ≡ write work.old o (upto work.old j count) }
{
    work.copy_within(j * 2..count * 2, o * 2);
    o + (count - j)
}

// A run, and the first run that it does not take up.
#[derive(Clone, Copy)]
struct Met {
    run: ZeroExtent,
    next: usize,
}

// The run `x` goes in the place of those from `i` to `next`, which it takes up: how many runs there are then. Out of line: `add` would save the registers of these
// loops where no run moves, too.
#[inline(never)]
fn replace(work: &mut [u64], count: usize, i: usize, next: usize, x: ZeroExtent) -> usize
    requires { (i ≤ next) × (next ≤ count) × (count * 2 + 1 < length work.old) }
    ensures { out work.new result ≡ write work.old i (x ∷ upto work.old next count) }
{
    if i < next {
        runs::write(work, i, x);
        close(work, count, i + 1, next)
    } else {
        open(work, count, i, x)
    }
}

// The run `x`, which stands at `i`, without one page of it: how many runs there are then.
fn cut(work: &mut [u64], count: usize, i: usize, x: ZeroExtent, page: u64) -> usize
    requires { (i < count) × (count * 2 + 1 < length work.old) × (x.start ≤ page) × (page < x.end) }
    ensures { out work.new result ≡ write work.old i (piece x.start page (piece (page + 1) x.end (upto work.old (i + 1) count))) }
{
    let left = ZeroExtent {
        start: x.start,
        end: page,
    };
    let right = ZeroExtent {
        start: page + 1,
        end: x.end,
    };
    if !left.is_empty() {
        runs::write(work, i, left);
        if !right.is_empty() {
            return open(work, count, i + 1, right);
        }
        return count;
    }
    if !right.is_empty() {
        runs::write(work, i, right);
        return count;
    }
    close(work, count, i, i + 1)
}

impl<'a> RunSet<'a> {
    // The set whose maximal runs stand in front of a list already.
    pub fn of(work: &'a mut [u64], count: usize) -> RunSet<'a>
        requires { (count * 2 ≤ length work.old) × (normalized (runs_in count work.old) ≡ true) }
        ensures same { IsSameList work.entry result.work }
        ensures runs { (result.count ≡ count) × (result.work.now ≡ work.old) }
    {
        RunSet { work, count }
    }

    // The maximal runs of the set that any runs denote, in front of the list.
    fn gather<L: RunList>(work: &'a mut [u64], list: L) -> RunSet<'a>
        requires { length (L.runs list) * 2 ≤ length work.old }
        ensures same { IsSameList work.entry result.work }
        ensures runs { (runs_in result.count result.work.now ≡ maximal (L.runs list)) × (result.count ≤ length (L.runs list)) }
    {
        let mut set = RunSet::of(work, 0);
        for x in list.iter() {
            set.add(x);
        }
        set
    }

    // As `gather`, and the rest of the list becomes zeros.
    pub fn copy<L: RunList>(work: &'a mut [u64], list: L) -> RunSet<'a>
        requires { length (L.runs list) * 2 ≤ length work.old }
        ensures same { IsSameList work.entry result.work }
        ensures runs { out result.work.now result.count ≡ laid (length work.old) (maximal (L.runs list)) }
    {
        let count = RunSet::gather(work, list).count;
        runs::clear(work, count * 2);
        RunSet::of(work, count)
    }

    // How many runs the set has.
    pub fn len(&self) -> usize
        ensures { result ≡ self.now.count }
    {
        self.count
    }

    fn get(&self, i: usize) -> ZeroExtent
        requires { i < self.now.count }
        ensures { result ≡ at self.now.work.now i }
    {
        runs::read(self.work, i)
    }

    // How many runs end before `page`. The last run is asked first: what lies behind it is placed at once. Then by halving.
    fn find(&self, page: u64) -> usize
        ensures { result ≡ place page (upto self.now.work.now 0 self.now.count) }
    {
        if self.count == 0 {
            return 0;
        }
        let last = self.count - 1;
        if self.get(last).end < page {
            return self.count;
        }
        let (pairs, _) = self.work[..last * 2].as_chunks::<2>();
        pairs.partition_point(|pair| pair[1] < page)
    }

    // The run `x` with the runs from `i` on that it meets: the index is a part of the answer.
    fn meet(&self, i: usize, x: ZeroExtent) -> Met
        requires { i ≤ self.now.count }
        ensures { (i ≤ result.next) × (result.next ≤ self.now.count)
            × (merge x (upto self.now.work.now i self.now.count) ≡ result.run ∷ upto self.now.work.now result.next self.now.count) }
    {
        let mut run = x;
        for next in i..self.count {
            let y = self.get(next);
            if run.end < y.start {
                return Met { run, next };
            }
            run = ZeroExtent {
                start: run.start.min(y.start),
                end: run.end.max(y.end),
            };
        }
        Met {
            run,
            next: self.count,
        }
    }

    // Adds the pages of a run. Where it goes behind all others or in the place of one, no run moves.
    pub fn add(&mut self, x: ZeroExtent)
        requires { self.old.count * 2 + 1 < length self.old.work.now }
        ensures same { IsSameList self.old.work self.new.work }
        ensures runs { out self.new.work.now self.new.count ≡ held self.old.work.now (maximal (x ∷ runs_in self.old.count self.old.work.now)) }
    {
        if x.is_empty() {
            return;
        }
        let i = self.find(x.start);
        if i == self.count {
            runs::write(self.work, i, x);
            self.count += 1;
            return;
        }
        let met = self.meet(i, x);
        if met.next == i + 1 {
            runs::write(self.work, i, met.run);
            return;
        }
        self.count = replace(self.work, self.count, i, met.next, met.run);
    }

    // Takes one page out.
    pub fn remove(&mut self, page: u64)
        requires { self.old.count * 2 + 1 < length self.old.work.now }
        ensures same { IsSameList self.old.work self.new.work }
        ensures runs { out self.new.work.now self.new.count ≡ held self.old.work.now (maximal (without page (runs_in self.old.count self.old.work.now))) }
    {
        let i = self.find(page);
        if i == self.count {
            return;
        }
        let x = self.get(i);
        if !x.contains(page) {
            return;
        }
        self.count = cut(self.work, self.count, i, x, page);
    }
}
