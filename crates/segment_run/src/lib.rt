//! The runs of the program over a volume that is cut into chunks: its basins, worked out in as many threads as
//! there are processors, and its segmentation, level by level, in several lanes.
//!
//! It stands on `face_pointers` and `steepest_ascent` for basins, on `rayon` for their threads, and on
//! `chunk_run` and `merge_tree` for merging. The program stands on it, and so do its checks (`segment_checks`).
#![tactic(auto)]

mod answer;
mod basin_run;
mod coarsening;
mod report;
mod segmenting;

pub use answer::{Answer, Settings};
pub use basin_run::{basins, basins_by_threads};
pub use chunk_run::{Gate, LevelCount, Open};
pub use report::report_text;
pub use segmenting::{count_basins, segment};
