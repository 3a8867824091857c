//! The graph of a node that has children, made of what these passed on: their names and contacts, and the
//! contacts across the faces between them.
//!
//! It stands on `region_graph`, whose lists it gathers and sums up, on `chunk_tree` for the cells of children, and
//! on lemmas of `work_laws`. `chunk_run` stands on it.
#![tactic(auto)]

mod across;
mod joining;
mod kids;
mod laws;

pub use joining::join;
pub use laws::residues_fit;
