//! Merging the reciprocal pairs of a region graph, and what is left of the graph when no pair is
//! reciprocal any more.
//!
//! It stands on `region_graph` for graphs, on `merge_tree` for merges and on `mean_fraction` for contacts
//! and the threshold. Agglomeration by chunks stands on it.
#![tactic(auto)]

mod chains;
mod closing;
mod firsts;
mod free_settling;
mod group_parts;
mod groups;
mod hubs;
mod links;
mod listing;
mod merging;
mod pairs;
mod residue;
mod settling;
mod slot_links;
mod slots;
mod trimming;

pub use free_settling::settle_free;
pub use settling::{Settled, settle};
