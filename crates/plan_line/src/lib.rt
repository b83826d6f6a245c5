// One line of zeroplan's text: its value, and the line feed that ends it; and the tests of the numbers that lines say.
#![tactic(auto)]

ghost use Rattle.std.specs.Prelude.{◌≡◌};
ghost use Rattle.decimal.specs.Text.{from};
ghost use Rattle.decimal.specs.Places.{found_in};
ghost use Rattle.meta.specs.Runs.{runs_of};
ghost use Rattle.plan_line.specs.Readers.{read_number, read_run, read_field};
ghost use Rattle.plan_line.specs.Values.{non_empty, distinct};
ghost use Rattle.plan_line.specs.Tests.{ascending};

use decimal::{Found, number, skip};
use meta::ZeroExtent;

pub fn read_number(text: &[u8], at: usize) -> Option<Found<u64>>
    ensures { found_in text.now result ≡ read_number (from text.now at) }
{
    let found = number(text, at)?;
    let next = skip(text, found.next, b"\n")?;
    Some(Found { next, ..found })
}

pub fn read_run(text: &[u8], at: usize) -> Option<Found<ZeroExtent>>
    ensures { found_in text.now result ≡ read_run (from text.now at) }
{
    let first = number(text, at)?;
    let dash = skip(text, first.next, b"-")?;
    let second = read_number(text, dash)?;
    let value = ZeroExtent {
        start: first.value,
        end: second.value,
    };
    let next = second.next;
    Some(Found { value, next })
}

// A whole line with a number, which has to be there.
pub fn read_field(text: &[u8], at: usize, key: &[u8]) -> Option<Found<u64>>
    ensures { found_in text.now result ≡ read_field key.now (from text.now at) }
{
    let value = skip(text, at, key)?;
    read_number(text, value)
}

// The tests of the numbers that were read. Runs are two numbers each, start, then end, and normalized when their numbers ascend.
pub fn is_ascending(numbers: &[u64]) -> bool
    ensures { result ≡ ascending numbers.now }
{
    numbers.is_sorted_by(|before, after| before < after)
}

pub fn none_is_empty(numbers: &[u64]) -> bool
    ensures { result ≡ non_empty (runs_of numbers.now) }
{
    let (runs, _) = numbers.as_chunks::<2>();
    runs.iter().all(|[start, end]| start < end)
}

pub fn are_distinct(numbers: &[u64]) -> bool
    ensures { result ≡ distinct numbers.now }
{
    numbers
        .iter()
        .enumerate()
        .all(|(i, n)| !numbers[i + 1..].contains(n))
}
