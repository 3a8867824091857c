ghost use Rattle.std.specs.Prelude.{◌≡◌, IfOk};
ghost use Rattle.seg_io.specs.InMemory.{desk_state, new_memory};
ghost use Rattle.agglo_program.specs.Run.{HasNoOutput};

use agglo_model::Memory;
use agglo_program::agglo;
use seg_io::{CallKind, Desk, MemoryDesk, Port};
use segment_run::{Gate, Open};
use std::alloc::{AllocError, Global};
use std::process::Abort;
use std::test::Fail;
use std::thread::Threads;

/// How a desk fails: how many bytes have room on a port, and which call fails.
#[derive(Clone, Copy)]
pub struct Failing {
    room: usize,
    call: (CallKind, u64),
}

/// Room for all, and a call that never comes.
pub const NOTHING: Failing = Failing {
    room: 65_536,
    call: (CallKind::OpenIn, 0),
};

fn read_failing(text: &str) -> Result<Failing, Fail> {
    let (room, call) = text.split_once(' ').ok_or("no call")?;
    let (kind, nth) = call.split_once(' ').ok_or("no number")?;
    let kind = match kind {
        "open-in" => CallKind::OpenIn,
        "read" => CallKind::Read,
        "open-out" => CallKind::OpenOut,
        "labels" => CallKind::Write(Port::Labels),
        "tree" => CallKind::Write(Port::Tree),
        "note" => CallKind::Write(Port::Note),
        _ => return Err(Fail::from("another call")),
    };
    Ok(Failing {
        room: room.parse()?,
        call: (kind, nth.parse()?),
    })
}

/// The words of a line, with a space between two.
pub fn words(alloc: Global, line: &str) -> Result<Vec<String>, AllocError> {
    let mut words = Vec::new(alloc);
    if line.is_empty() {
        return Ok(words);
    }
    for word in line.split(' ') {
        words.push(String::from_str(alloc, word)?)?;
    }
    Ok(words)
}

/// The bytes of a file from its parts.
pub fn file(alloc: Global, text: &str) -> Result<Vec<u8>, Fail> {
    let mut bytes = Vec::new(alloc);
    for (i, part) in text.split(" / ").enumerate() {
        match i {
            0 => add_numbers(&mut bytes, part)?,
            1 => add_bytes(&mut bytes, part)?,
            _ => set_bytes(&mut bytes, part)?,
        }
    }
    Ok(bytes)
}

fn add_numbers(bytes: &mut Vec<u8>, text: &str) -> Result<(), Fail> {
    for (i, word) in text.split(' ').enumerate() {
        if i == 0 {
            bytes.extend_from_slice(word.as_bytes())?;
        } else {
            bytes.extend_from_slice(&word.parse::<u32>()?.to_le_bytes())?;
        }
    }
    Ok(())
}

fn add_bytes(bytes: &mut Vec<u8>, text: &str) -> Result<(), Fail> {
    let (count, value) = text.split_once(' ').ok_or("no byte")?;
    let value = value.parse()?;
    for _ in 0..count.parse::<u32>()? {
        bytes.push(value)?;
    }
    Ok(())
}

/// A byte, and then the places after a header that have it.
fn set_bytes(bytes: &mut [u8], text: &str) -> Result<(), Fail> {
    let (value, places) = text.split_once(' ').ok_or("no place")?;
    let value = value.parse()?;
    for place in places.split(' ') {
        if let Some(byte) = bytes.get_mut(32 + usize::from(place.parse::<u16>()?)) {
            *byte = value;
        }
    }
    Ok(())
}

/// A desk in memory, in a box: a function that owns the desk itself takes many times as long to prove.
pub fn boxed(alloc: Global, room: usize) -> Result<Box<MemoryDesk>, Fail>
    ensures { IfOk result (λ desk. desk.value ≡ new_memory room) }
{
    let desk = MemoryDesk::new(alloc, room)?;
    Ok(Box::new(alloc, desk)?)
}

/// What a run of the program on these words leaves on a desk in memory, which has a file `in` of these bytes and
/// takes or gives 16 bytes at most a call.
pub fn run<R: Threads + Sync, G: Gate>(
    rt: &R,
    alloc: Global,
    line: &str,
    bytes: &[u8],
    failing: Failing,
    gate: &G,
) -> Result<String, Fail> {
    let words = words(alloc, line)?;
    let mut desk = boxed(alloc, failing.room)?;
    prepare(&mut *desk, bytes, failing)?;
    let status = end_status(rt, alloc, &words, &mut *desk, gate);
    left_on(alloc, status, &*desk)
}

/// Gives a desk its file and its failures.
fn prepare(desk: &mut MemoryDesk, bytes: &[u8], failing: Failing) -> Result<(), Memory>
    requires { HasNoOutput (desk_state desk.old) }
    ensures { HasNoOutput (desk_state desk.new) }
{
    desk.add_file("in", bytes)?;
    desk.fail_call(failing.call.0, failing.call.1)?;
    desk.at_most(16);
    Ok(())
}

/// The status with which the program ends over any desk. It promises nothing of the desk, so that the clauses of
/// `agglo` need not be worked out for each one.
pub fn end_status<R: Threads + Sync, D: Desk, G: Gate>(
    rt: &R,
    alloc: Global,
    words: &[String],
    desk: &mut D,
    gate: &G,
) -> u8
    requires { HasNoOutput (D.state desk.old) }
{
    agglo(rt, alloc, words, desk, gate)
}

/// The status, each file that was opened, the note, the line of a refusal, and how much of the input is left, with
/// strokes between them.
fn left_on(alloc: Global, status: u8, desk: &MemoryDesk) -> Result<String, Fail> {
    let mut told = format!(in alloc; "{status}")?;
    for port in [Port::Labels, Port::Tree, Port::Volume] {
        if let Some(name) = desk.opened_name(port) {
            let file = numbers(alloc, desk.written(port))?;
            write!(told, " | {name} {file}")?;
        }
    }
    add_text(&mut told, desk.written(Port::Note))?;
    add_text(&mut told, desk.written(Port::Trouble))?;
    let left = desk.left();
    if left > 0 {
        write!(told, " | {left} bytes left")?;
    }
    Ok(told)
}

/// A text, with `;` for its line feeds.
fn add_text(told: &mut String, bytes: &[u8]) -> Result<(), AllocError> {
    if !bytes.is_empty() {
        told.push_str(" | ")?;
    }
    for byte in bytes {
        let character = if *byte == b'\n' { b';' } else { *byte };
        told.push(char::from(character))?;
    }
    Ok(())
}

/// The text that a file begins with, its numbers of four bytes, and of a file that ends within a number the bytes
/// that follow the last, as one number.
pub fn numbers(alloc: Global, bytes: &[u8]) -> Result<String, Fail> {
    let mut told = String::new(alloc);
    let mut number: u32 = 0;
    for (i, byte) in bytes.iter().enumerate() {
        number = number >> 8 | u32::from(*byte) << 24;
        if i < 8 {
            told.push(char::from(*byte))?;
        } else if i % 4 == 3 {
            write!(told, " {number}")?;
        }
    }
    match bytes.len() % 4 {
        0 => {}
        rest => write!(told, " and {}", number >> (32 - 8 * rest))?,
    }
    Ok(told)
}

/// Runs the program as a case says, and compares all that it left on its desk.
pub fn check<R: Threads + Sync + Abort>(
    rt: &R,
    alloc: Global,
    head: &str,
    case: &str,
) -> Result<(), Fail> {
    let mut lines = head.lines().chain(case.lines());
    let words = lines.next().ok_or("no words")?;
    let bytes = file(alloc, lines.next().ok_or("no file")?)?;
    let wanted = lines.next().ok_or("no outcome")?;
    let failing = match lines.next() {
        Some(line) => read_failing(line)?,
        None => NOTHING,
    };
    let told = run(rt, alloc, words, &bytes, failing, &Open)?;
    assert_eq!(rt; told.as_str(), wanted, "after {words}");
    Ok(())
}

/// Checks all cases of these tables, between which an empty line stands.
pub fn check_all<R: Threads + Sync + Abort>(
    rt: &R,
    alloc: Global,
    tables: &[(&str, &str)],
) -> Result<(), Fail> {
    for (head, cases) in tables {
        for case in cases.split("\n\n") {
            check(rt, alloc, head, case)?;
        }
    }
    Ok(())
}
