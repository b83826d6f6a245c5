// Whether a page is zero, by runs in a lent slice of structs.
#![tactic(auto)]

ghost use Rattle.std.specs.Prelude.{◌≡◌};
ghost use Rattle.runs.specs.Sets.{covers, within};

use meta::ZeroExtent;

// Whether the run has the page.
fn in_run(x: ZeroExtent, page: u64) -> bool
    ensures { result ≡ within x page }
{
    runs::covered(&[x.start, x.end], 1, page)
}

// 01: the test "also takes a lent slice of `ZeroExtent`", "calling the covered test on numbers".
// It stands for callers that have one: nothing in the store does.
pub fn is_zero(extents: &[ZeroExtent], page: u64) -> bool
    ensures { result ≡ covers extents.now page }
{
    extents.iter().any(|x| in_run(*x, page))
}
