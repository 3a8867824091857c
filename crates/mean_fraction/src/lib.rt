//! Mean affinities as exact fractions: the contact of two regions, the order of contacts, and the
//! threshold. It stands on `agglo_model`; agglomeration stands on it.
#![tactic(auto)]

mod contacts;
mod thresholds;

pub use contacts::{Contact, order_number, rank};
pub use thresholds::{Threshold, ZeroDenominator};
