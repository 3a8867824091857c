//! Checks of what labels stand on, with answers worked out by hand: the strongest edges of small volumes, the
//! ascents within a cell, the basins of a whole volume and those that are put together from pieces, and the
//! cuttings.
//!
//! It stands on `edge_order`, `steepest_ascent`, `chunk_tree` and `face_pointers`, and nothing stands on it: there
//! is nothing here to call, the tests are all.
#![tactic(auto)]

#[cfg(test)]
mod tests;
