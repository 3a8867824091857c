//! The words of the command line: which lists of words are settings, and what they ask for.
//!
//! It stands on `mean_fraction` for the threshold, on `seg_base` for the axes of a volume, and on `clap`,
//! which finds the options. The top call stands on it.
#![tactic(auto)]

pub mod examples;
mod job;
pub mod laws;
mod options;
mod parser;
mod settings;
mod values;
mod words;

pub use job::{Job, WordsFault};
pub use words::read_words;
