//! Which of two edges is stronger, and the strongest edge at a voxel.
//!
//! It stands on `volume_file`, whose affinities it compares, and on `seg_base` for grids and boxes of voxels.
//! `steepest_ascent` stands on it.
#![tactic(auto)]

mod best;
mod rows;
mod step;

pub use best::{best_edge, best_step, stronger};
pub use rows::{best_steps, cell_steps};
pub use step::Step;
