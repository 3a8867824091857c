//! Checks of the merging of regions. `segment_run::segment` is compared with a plain computation, on many small
//! volumes: the same basins, labels and merges, however the volume is cut. The steps below it, from the graphs of
//! nodes to the run over all of them, are compared with answers worked out by hand.
//!
//! It stands on `segment_run` and on the crates that this is made of, and nothing stands on it: there is nothing
//! here to call, the tests are all. The plain computation takes edges, basins and contacts straight from their
//! definitions, looks at everything anew in each step, and shares nothing but types with the crates that it checks.
#![tactic(auto)]

#[cfg(test)]
mod tests;
