//! The grid of a volume: its axes, its voxels and edges, boxes of voxels, and lists of labels.
//!
//! It stands on `agglo_model`, whose records its types mean. All that knows volumes or labels stands
//! on it.
#![tactic(auto)]

mod cell;
mod dims;
mod labels;

pub use cell::Cell;
pub use dims::{DimFault, Dims};
pub use labels::Labels;
