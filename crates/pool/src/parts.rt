// The bytes of the file from one offset on and their places in a slice, cut where pages end.
ghost use Rattle.std.specs.Iterator.{at_most};
ghost use Rattle.std.specs.Option.{MatchOption};
ghost use Rattle.std.specs.Prelude.{◌≡◌, ◌+◌, ◌-◌, ◌%◌, ◌≤◌, ◌<◌, min};

use config::PAGE_LEN;
use std::ops::Range;

// The parts that are left of `len` bytes from `offset` on, behind the first `done`. Of each: where it begins, and its place in the slice, up to the end of its page at most.
#[derive(Clone, Copy)]
pub struct Parts {
    pub offset: u64,
    pub done: usize,
    pub len: usize,
    ghost in_range: { offset + len ≤ 18446744073709551615 },
}

impl Parts {
    // All the parts.
    pub fn of(offset: u64, len: usize) -> Self
        requires { offset + len ≤ 18446744073709551615 }
        ensures { (result.offset ≡ offset) × (result.done ≡ 0) × (result.len ≡ len) }
    {
        Parts {
            offset,
            done: 0,
            len,
        }
    }
}

impl Iterator for Parts {
    type Item = (u64, Range<usize>);

    ghost next_gives = { λ s r t. MatchOption r (s.len ≤ s.done)
        (λ p. (s.done < s.len) × (p.0 ≡ s.offset + s.done) × (p.1.start ≡ s.done) × (p.1.end ≡ s.done + min (s.len - s.done) (16384 - (s.offset + s.done) % 16384))
        × (t.offset ≡ s.offset) × (t.done ≡ p.1.end) × (t.len ≡ s.len)) };

    ghost remaining = { λ s. at_most (s.len - s.done) };

    fn next(&mut self) -> Option<(u64, Range<usize>)> {
        if self.len <= self.done {
            return None;
        }
        let from = self.done;
        let at = self.offset + (from as u64);
        let most = PAGE_LEN - config::page_offset(at);
        self.done += most.min(self.len - from);
        Some((at, from..self.done))
    }
}
