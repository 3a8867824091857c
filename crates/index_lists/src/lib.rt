//! Doubly linked lists of numbered items, kept by index in vectors: an item is added at the front of a list,
//! unlinked, and a whole list appended to another, each in constant time and with no memory taken.
//!
//! It stands on `agglo_model`, for `Memory` alone.
#![tactic(auto)]

pub mod examples;
mod lists;
mod nodes;

pub use lists::Lists;
