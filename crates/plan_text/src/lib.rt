// The text of the program zeroplan: what it reads, and what it writes.
// The three lent buffers are parameters of their own: a struct of them would be made for each call and taken apart in it.
#![tactic(auto)]

mod section;

ghost use Rattle.std.specs.Prelude.{◌≡◌};
ghost use Rattle.decimal.specs.Text.{from};

use crate::section::read_section;
use meta::{Superblock, ZeroExtent};
use plan_line::{are_distinct, is_ascending, none_is_empty, read_field};
pub use plan_report::{PlanError, print};

// The two sizes, and how many lines there are of each kind.
// Not slices of the buffers, tried: of a lent buffer that a result borrows to be read a contract cannot say what it holds at the end, and
// `parse` says it also of a malformed text.
#[derive(Clone, Copy, Debug, PartialEq, Eq)]
pub struct Parsed {
    pub old_size: u64,
    pub new_size: u64,
    pub extents: usize,
    pub recorded: usize,
    pub dirty: usize,
}

ghost use Rattle.plan_text.specs.Parse.{parse_extents};
ghost use Rattle.plan_text.specs.Parse.{parse as parseText};
ghost use Rattle.plan_text.specs.Fill.{outcome, filled_by};

pub const MOST_BYTES: usize = 65_536;

// "1,024 of each at most", as many as a superblock may have runs; a run is two numbers.
pub const MOST_PAGES: usize = Superblock::MAX_ZERO_EXTENTS as usize;

pub const MOST_RUN_NUMBERS: usize = 2 * MOST_PAGES;

// What follows the two sizes.
fn parse_lists(
    text: &[u8],
    at: usize,
    old: u64,
    new: u64,
    extents: &mut [u64; MOST_RUN_NUMBERS],
    recorded: &mut [u64; MOST_RUN_NUMBERS],
    dirty: &mut [u64; MOST_PAGES],
) -> Option<Parsed>
    ensures { outcome result extents.new recorded.new dirty.new ≡ filled_by (parse_extents old new (from text.now at)) extents.old recorded.old dirty.old }
{
    let first = read_section::<ZeroExtent, _>(text, at, b"extent=", extents, is_ascending)?;
    let second = read_section::<ZeroExtent, _>(
        text,
        first.next,
        b"record=",
        recorded,
        none_is_empty,
    )?;
    let third = read_section::<u64, _>(text, second.next, b"dirty=", dirty, are_distinct)?;
    if third.next < text.len() {
        return None;
    }
    Some(Parsed {
        old_size: old,
        new_size: new,
        extents: first.value,
        recorded: second.value,
        dirty: third.value,
    })
}

// Reads a whole text. What it says of each kind comes to lie at the front of the buffer for that kind: two numbers a run,
// start, then end; the rest of each buffer stays as it was.
pub fn parse(
    text: &[u8],
    extents: &mut [u64; MOST_RUN_NUMBERS],
    recorded: &mut [u64; MOST_RUN_NUMBERS],
    dirty: &mut [u64; MOST_PAGES],
) -> Option<Parsed>
    ensures { outcome result extents.new recorded.new dirty.new ≡ filled_by (parseText text.now) extents.old recorded.old dirty.old }
{
    if MOST_BYTES < text.len() {
        return None;
    }
    let old = read_field(text, 0, b"old_size=")?;
    let new = read_field(text, old.next, b"new_size=")?;
    parse_lists(
        text, new.next, old.value, new.value, extents, recorded, dirty,
    )
}
