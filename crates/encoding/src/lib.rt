// A store's state as bytes, and a call's answer as numbers: what passes between the store and a program in C.
#![tactic(auto)]

mod overlay_numbers;
mod reply;
mod state_bytes;

pub use reply::{Values, given, number, show, tell};
pub use state_bytes::{decode, encode};
