ghost use Rattle.std.specs.Prelude.{◌≡◌, ◌≤◌, IfOk, true};
ghost use Rattle.seg_io.specs.InMemory.{desk_state, new_memory};

mod desks;
mod grids;
mod means;
mod trees;
mod volumes;

use seg_io::{CallKind, Desk, MemoryDesk};
use std::alloc::Global;
use std::test::Fail;

/// A new desk with room for so many bytes on each port. It stands in a box, so that those who own it let go of one
/// pointer, which keeps their proofs short.
fn boxed(alloc: Global, room: usize) -> Result<Box<MemoryDesk>, Fail>
    ensures { IfOk result (λ desk. desk.value ≡ new_memory room) }
{
    Ok(Box::new(alloc, MemoryDesk::new(alloc, room)?)?)
}

/// The bytes of a file from its words: a number stands for its four bytes, and any other word for itself.
fn file(alloc: Global, words: &str) -> Result<Vec<u8>, Fail> {
    let mut bytes = Vec::new(alloc);
    for word in words.split(' ') {
        match word.parse::<u32>() {
            Ok(number) => bytes.extend_from_slice(&number.to_le_bytes())?,
            Err(_) => bytes.extend_from_slice(word.as_bytes())?,
        }
    }
    Ok(bytes)
}

/// A new desk with room for so many bytes on each port, which gives and takes so many bytes at most a call. The call
/// of this kind and number fails.
fn failing(
    alloc: Global,
    room: usize,
    most: usize,
    call: (CallKind, u64),
) -> Result<Box<MemoryDesk>, Fail>
    requires { 1 ≤ most }
{
    let mut desk = boxed(alloc, room)?;
    desk.fail_call(call.0, call.1)?;
    desk.at_most(most);
    Ok(desk)
}

/// A desk whose input is a file of these bytes. It gives and takes seven bytes at most a call, and the read of this
/// number fails.
fn opened(alloc: Global, bytes: &[u8], nth: u64) -> Result<Box<MemoryDesk>, Fail>
    ensures { IfOk result (λ desk. (desk_state desk.value).has_input ≡ true) }
{
    let mut desk = failing(alloc, 300_000, 7, (CallKind::Read, nth))?;
    desk.add_file("in", bytes)?;
    desk.open_in("in")?;
    Ok(desk)
}
