//! The work of all nodes of a cutting, level by level, the nodes of a level in several lanes at a time.
//!
//! It stands on `region_graph`, `parent_join`, `mutual_merge` and `merge_tree` for the work of a node, on
//! `chunk_tree` for the nodes, and on `work_laws` for why those of one level may be worked in any order.
//! `segment_run` stands on it.
#![tactic(auto)]

mod count;
mod gate;
mod handing;
mod lanes;
mod node_work;
mod progress;
mod running;

pub use count::LevelCount;
pub use gate::{Gate, Open};
pub use running::{TreeRun, run_tree};
