//! Why a run of the program ends without its answer being written: the status that it ends with, and the
//! one line that tells why on standard error.
//!
//! It stands on `command_words`, `volume_file` and `merge_tree`, whose faults end a run, and on `seg_io` for the
//! desk. The top call stands on it.
#![tactic(auto)]

mod line;
mod refusal;
mod telling;

pub use refusal::Refusal;
pub use telling::tell;
