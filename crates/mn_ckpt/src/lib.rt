//! Images behind gates: two areas at the front of a disk, each of which holds 16 bytes behind a
//! gate. A crash while an image is written leaves the bytes from before, a closed area, or the
//! area open with that image.
#![tactic(auto)]

mod area;
mod error;
mod synced;

pub use area::{image_in, read_image, write_image};
pub use error::ImageError;
pub use synced::{change, cut_to};
