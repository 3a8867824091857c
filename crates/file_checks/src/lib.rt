//! Checks of the file layer by examples from outside: the grid and its labels, means, the desk in memory, and the
//! files of volumes and merges.
//!
//! It stands on `merge_tree`, `volume_file`, `mean_fraction`, `seg_io` and `seg_base`, and nothing stands on it:
//! there is nothing here to call, the tests are all.
#![tactic(auto)]

#[cfg(test)]
mod tests;
