// Whether an update may have one more dirty page.
ghost use Rattle.std.specs.Prelude.{◌≡◌, ◌<◌};
ghost use Rattle.update.specs.Update.{passing, raised};
ghost use Rattle.update.specs.Admit.{admission, admitted};

use crate::Budget;
use config::{Refusal, SQLITE_PAGE_SIZE};

// What `Budget::passed` holds.
const NOT_PASSED: u64 = 0;

const BY_PAGES: u64 = 1;

const BY_BYTES: u64 = 2;

impl Budget {
    // The mark that `pages` dirty pages leave.
    #[tactic(auto, unfolding(crate::specs::Update::passing, crate::specs::Update::budget_bytes))]
    fn mark(self, pages: u64) -> u64
        ensures { result ≡ passing 16384 pages self }
    {
        if !self.limited {
            return NOT_PASSED;
        }
        if self.passed != NOT_PASSED {
            return self.passed;
        }
        if self.max_pages < pages {
            return BY_PAGES;
        }
        if self.max_bytes < pages.saturating_mul(SQLITE_PAGE_SIZE) {
            return BY_BYTES;
        }
        NOT_PASSED
    }

    // A limited budget's peaks, with `pages` dirty pages.
    #[tactic(auto, unfolding(crate::specs::Update::raised, crate::specs::Update::budget_bytes))]
    fn raise(&mut self, pages: u64)
        ensures { self.new ≡ raised 16384 pages self.old }
    {
        if self.limited {
            self.peak_pages = self.peak_pages.max(pages);
            self.peak_bytes = self.peak_bytes.max(pages.saturating_mul(SQLITE_PAGE_SIZE));
        }
    }

    // Whether a page may become dirty where `dirty` are, with `room` frames: "page by page 30 and 33", and 33 "before a peak rises".
    #[tactic(auto, unfolding(crate::specs::Admit::admitted, crate::specs::Admit::with_mark))]
    pub fn admit(&mut self, dirty: usize, room: usize) -> Result<(), Refusal>
        requires { dirty < 18446744073709551615 }
        ensures { admission self.new result ≡ admitted 16384 room dirty self.old }
    {
        let pages = (dirty as u64) + 1;
        let passed = self.mark(pages);
        if passed != NOT_PASSED {
            self.passed = passed;
            return Err(Refusal::BudgetExceeded);
        }
        if room <= dirty {
            return Err(Refusal::FramesFull);
        }
        self.raise(pages);
        Ok(())
    }
}
