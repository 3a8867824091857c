//! The ascent from each voxel along best edges, to the basin where it ends.
//!
//! It stands on `edge_order`, which finds the best edges, on `volume_file` and on `seg_base`. `face_pointers`,
//! which follows ascents from cell to cell, `segment_run` and the program stand on it.
#![tactic(auto)]

mod ascent;
mod basins;
mod cell_ascent;
mod climbing;
mod ends;

pub use basins::whole_basins;
pub use climbing::climb;
pub use ends::{End, Ends};
