// What comes first: an image is opened, an update of it begun.
// State and memory are two parameters, as `transfer` says.
#![tactic(auto)]

mod beginning;
mod loading;

pub use beginning::begin_update;
pub use loading::open;
