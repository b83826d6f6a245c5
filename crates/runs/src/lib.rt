// Sets of zero pages as lists of runs: in numbers or in bytes.
#![tactic(auto)]

mod list;
mod work;

pub use list::{RunList, Runs, covers_page, is_normalized};
pub use work::{Numbers, Stored, clear, covered, first, read, write};
