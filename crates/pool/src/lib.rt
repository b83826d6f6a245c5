// Pages in lent slices: frames of 16,384 bytes one behind the other with a list of page numbers, the clean cache, the record, and the image's pages.
// The lent slices are parameters of their own, as `update::Stored` says.
// A count stands beside a slice where that is lent with room for more.
#![tactic(auto)]

mod cache;
mod image;
mod pages;
mod parts;
mod record;

pub use cache::{
    find_clean, insert, load, retain_clean, retain_clean_below, retain_clean_others, settle,
};
pub use image::{below_size, reach, read_image, read_stored, stored_from};
pub use pages::{find, retain, retain_below, retain_others};
pub use parts::Parts;
pub use record::push_run;
