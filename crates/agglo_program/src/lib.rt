//! The program as a function: the top call over any desk, and the desk over the real world.
//!
//! It stands on the crates that read, segment and write. `agglo` has all that is proved of the program; `agglo_cli`
//! runs it over a `FileDesk`, and its tests stand in `program_checks`.
#![tactic(auto)]

mod file_desk;
mod input;
mod note;
mod output;
mod shown;
mod top_call;

pub use file_desk::FileDesk;
pub use top_call::{agglo, refuse};
