//! Region graphs: the names in the cell of a node and their contacts there, made from the labels of the
//! cell of a leaf.
//!
//! It stands on `volume_file` for affinities, on `chunk_tree` for cells and on `mean_fraction` for contacts.
//! What merges regions and what joins the graphs of children stands on it.
#![tactic(auto)]

mod blocks;
mod buckets;
mod contacts;
mod graph;
mod keys;
mod leaf;
mod names;
mod recent;
mod site;
mod sums;

pub use contacts::add_contacts;
pub use graph::{Edge, Graph, Parts, Region, Residue};
pub use keys::pair_key;
pub use leaf::of_leaf;
pub use site::Site;
pub use sums::{join_regions, sum_contacts};
