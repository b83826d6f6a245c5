// Words and decimal numbers in a text, read and written at a place.
#![tactic(auto)]

mod read;
mod write;

pub use read::{Found, number, skip};
pub use write::Writer;
