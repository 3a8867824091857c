//! The outside as a trait, `Desk`: the calls by which the program opens, reads and writes, and how
//! each may fail. Above it the calls that go on until a piece is whole (`fill`, `put_all`,
//! `Piecer`) and the numbers in files, and below it a desk in memory.
//!
//! It stands on `agglo_model`, which says what the numbers in files mean, and on `byteorder`, which reads them.
//! The readers and writers of files (`volume_file`, `merge_tree`), `refusals` and the program stand on it.
#![tactic(auto)]

mod call_count;
mod desk;
mod header;
mod input_files;
mod memory_desk;
mod opened_ports;
mod output;
mod piecer;
mod pieces;
mod port;

pub use desk::{Desk, Failed};
pub use header::{HEADER_LENGTH, u32_at, u64_at};
pub use memory_desk::{CallKind, MemoryDesk, Side};
pub use piecer::Piecer;
pub use pieces::{PIECE_LENGTH, fill, put_all};
pub use port::Port;
