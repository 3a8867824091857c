//! The cutting of a volume into chunks, as a tree: the cells of its nodes double on each axis from level
//! to level, until one holds the whole volume.
//!
//! It stands on `seg_base` for grids and cells. All that is worked out chunk by chunk, or joined along this
//! tree, stands on it.
#![tactic(auto)]

mod cutting;
mod kids;
mod level;

pub use cutting::{CutFault, Cutting, Finer};
pub use kids::Kids;
pub use level::bit;
