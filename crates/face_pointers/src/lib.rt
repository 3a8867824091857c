//! The basins of a volume from the ascents within its pieces: an ascent that leaves a piece is followed
//! from face to face.
//!
//! It stands on `steepest_ascent`, which climbs within a piece, on `chunk_tree`, which cuts a volume into
//! pieces, and on `rayon` for the number of threads. `segment_run`, which climbs all pieces, stands on it.
#![tactic(auto)]

mod exits;
mod resolving;

pub use resolving::{climb_leaf, resolve, resolve_into};
