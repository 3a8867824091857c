//! The definitions that every contract of this repository cites, and the laws over them.
//!
//! It stands on nothing but std, and every other crate stands on it.
#![tactic(auto)]

pub mod cutting_examples;
pub mod examples;
pub mod greedy_examples;
pub mod laws;
pub mod laws_of_cutting;
pub mod laws_of_files;
pub mod laws_of_means;
pub mod laws_of_merging;
pub mod laws_of_nodes;
pub mod laws_of_trees;
pub mod node_examples;
pub mod tree_examples;

use std::alloc::{AllocError, AllocFailed};

/// Want of memory: the one refusal that no contract ties to a cause.
#[derive(Clone, Copy, Debug, PartialEq, Eq)]
pub struct Memory;

impl From<AllocError> for Memory {
    fn from(_error: AllocError) -> Memory {
        Memory
    }
}

impl<T: Drop> From<AllocFailed<T>> for Memory {
    fn from(_error: AllocFailed<T>) -> Memory {
        Memory
    }
}
