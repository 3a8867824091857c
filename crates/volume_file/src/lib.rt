//! Volumes of affinities, and the files that hold them.
//!
//! It stands on `seg_base` for the grid and on `seg_io` for the desk. All that looks at affinities
//! stands on it.
#![tactic(auto)]

mod body;
mod fault;
mod generating;
mod reading;
mod sequence;
mod volume;
mod writing;

pub use body::read_body;
pub use fault::VolumeFault;
pub use generating::{generate, write_generated};
pub use reading::{read_head, read_volume};
pub use volume::{Head, Volume};
pub use writing::write_volume;
