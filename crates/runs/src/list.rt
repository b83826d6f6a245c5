// Lists of runs, whatever holds them.
ghost use Rattle.std.specs.Iterator.{YieldsFirst, item_count};
ghost use Rattle.std.specs.Prelude.{◌≡◌, ◌<◌, List, length, get_or, drop};
ghost use Rattle.meta.specs.declared.ZeroExtent.{ZeroExtent};
ghost use Rattle.meta.specs.Runs.{run, normalized};
ghost use Rattle.runs.specs.Sets.{covers};

use meta::ZeroExtent;

// A list of runs, which the one who holds it can ask for run `i`.
pub trait RunList: Copy {
    ghost runs: { Self → List ZeroExtent };

    fn count(self) -> usize
        ensures { result ≡ length (runs self) };

    fn get(self, i: usize) -> ZeroExtent
        requires { i < length (runs self) }
        ensures { result ≡ get_or (runs self) i (run 0 0) };

    // The runs, one after another.
    final fn iter(self) -> Runs<Self>
        ensures { drop result.next (runs result.list) ≡ runs self }
    {
        Runs {
            list: self,
            next: 0,
        }
    }
}

// The runs of a list that are left, from run `next` on.
#[derive(Clone, Copy)]
pub struct Runs<L> {
    pub list: L,
    pub next: usize,
}

impl<L: RunList> Iterator for Runs<L> {
    type Item = ZeroExtent;

    ghost next_gives = { YieldsFirst (λ it. drop it.next (L.runs it.list)) };

    ghost remaining = { item_count (λ it. drop it.next (L.runs it.list)) };

    fn next(&mut self) -> Option<ZeroExtent> {
        if self.list.count() <= self.next {
            return None;
        }
        let x = self.list.get(self.next);
        self.next += 1;
        Some(x)
    }
}

// Whether one of the runs has the page: any runs, in any order.
pub fn covers_page<L: RunList>(list: L, page: u64) -> bool
    ensures { result ≡ covers (L.runs list) page }
{
    list.iter().any(|x| x.contains(page))
}

// Whether the runs are normalized. By number: one pass asks each run about itself and the next one, where `all` and `is_sorted_by` would be two passes.
pub fn is_normalized<L: RunList>(list: L) -> bool
    ensures { result ≡ normalized (L.runs list) }
{
    let n = list.count();
    for i in 0..n {
        let run = list.get(i);
        if run.is_empty() {
            return false;
        }
        if i + 1 < n && list.get(i + 1).start <= run.end {
            return false;
        }
    }
    true
}
