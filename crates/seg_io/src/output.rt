ghost use Rattle.std.specs.Prelude.{◌≡◌, ℕ, ◌<◌, ◌≤◌, [], length, MatchOption, MatchResult, IfOk};
ghost use Rattle.seg_io.specs.InMemory.{OutputState, OutputsState, new_output, new_outputs, output_at, with_output, told, WritesOutput, RefusesOutput};

use crate::call_count::CallCount;
use crate::port::Port;
use agglo_model::Memory;
use std::alloc::{AllocError, Global};
use std::marker::Model;

/// What was written on a port, with room for so many bytes.
#[derive(Drop)]
pub struct Output {
    bytes: Vec<u8>,
    room: usize,
    calls: CallCount,
}

impl Model for Output {
    ghost use Rattle.std.specs.Prelude.{◌≤◌, length, vec_capacity};
    ghost use Rattle.seg_io.specs.InMemory.{OutputState};

    ghost Value = { OutputState };

    ghost view = { λ o. record { bytes = o.bytes.items; room = o.room; calls = o.calls } };

    ghost invariant = { λ o. (length o.bytes.items ≤ o.room) × (o.room ≤ vec_capacity o.bytes) };
}

impl Output {
    /// Nothing written, and room for so many bytes.
    pub fn new(alloc: Global, room: usize) -> Result<Output, AllocError>
        ensures { IfOk result (λ output. output ≡ new_output room) }
    {
        let bytes = Vec::with_capacity(alloc, room)?;
        Ok(Output {
            bytes,
            room,
            calls: CallCount::new(alloc),
        })
    }

    /// What was written.
    pub fn bytes(&self) -> &[u8]
        ensures { result.now ≡ self.now.bytes }
    {
        self.bytes.as_slice()
    }

    /// Writes as many of the bytes as `most` and the room allow, and answers how many.
    pub fn write(&mut self, most: usize, bytes: &[u8]) -> Option<usize>
        ensures { MatchOption result
            (RefusesOutput self.old self.new)
            (λ k. WritesOutput k most bytes.now self.old self.new) }
    {
        let due = self.calls.count();
        let free = self.room - self.bytes.len();
        if due || free == 0 {
            return None;
        }
        let taken = bytes.len().min(most).min(free);
        if self.bytes.extend_from_slice(&bytes[..taken]).is_err() {
            unreachable!()
        }
        Some(taken)
    }

    /// Forgets what was written.
    pub fn clear(&mut self)
        ensures { self.new ≡ record self.old { bytes = [] } }
    {
        self.bytes.clear();
    }

    /// Tells the write of this number, from 1, to fail. Where memory runs out nothing changes.
    pub fn tell(&mut self, nth: u64) -> Result<(), Memory>
        ensures { MatchResult result
            (λ _. self.new ≡ record self.old { calls = told nth self.old.calls })
            (λ _. self.new ≡ self.old) }
    {
        self.calls.tell(nth)
    }
}

/// What was written on each port.
#[derive(Drop)]
pub struct Outputs {
    labels: Output,
    tree: Output,
    volume: Output,
    note: Output,
    trouble: Output,
}

impl Model for Outputs {
    ghost use Rattle.seg_io.specs.InMemory.{OutputsState};

    ghost Value = { OutputsState };

    ghost view = { λ o. record { labels = o.labels; tree = o.tree; volume = o.volume; note = o.note; trouble = o.trouble } };
}

impl Outputs {
    /// Nothing written, and room for so many bytes on each port.
    pub fn new(alloc: Global, room: usize) -> Result<Outputs, AllocError>
        ensures { IfOk result (λ outputs. outputs ≡ new_outputs room) }
    {
        Ok(Outputs {
            labels: Output::new(alloc, room)?,
            tree: Output::new(alloc, room)?,
            volume: Output::new(alloc, room)?,
            note: Output::new(alloc, room)?,
            trouble: Output::new(alloc, room)?,
        })
    }

    /// What was written on one port.
    pub fn bytes(&self, port: Port) -> &[u8]
        ensures { result.now ≡ (output_at port self.now).bytes }
    {
        match port {
            Port::Labels => self.labels.bytes(),
            Port::Tree => self.tree.bytes(),
            Port::Volume => self.volume.bytes(),
            Port::Note => self.note.bytes(),
            Port::Trouble => self.trouble.bytes(),
        }
    }

    /// Writes on one port, as `Output::write`.
    pub fn write(&mut self, port: Port, most: usize, bytes: &[u8]) -> Option<usize>
        ensures written { MatchOption result
            (RefusesOutput (output_at port self.old) (output_at port self.new))
            (λ k. WritesOutput k most bytes.now (output_at port self.old) (output_at port self.new)) }
        ensures others { self.new ≡ with_output port (output_at port self.new) self.old }
    {
        match port {
            Port::Labels => self.labels.write(most, bytes),
            Port::Tree => self.tree.write(most, bytes),
            Port::Volume => self.volume.write(most, bytes),
            Port::Note => self.note.write(most, bytes),
            Port::Trouble => self.trouble.write(most, bytes),
        }
    }

    /// Forgets what was written on one port.
    pub fn clear(&mut self, port: Port)
        ensures { self.new ≡ with_output port (record (output_at port self.old) { bytes = [] }) self.old }
    {
        match port {
            Port::Labels => self.labels.clear(),
            Port::Tree => self.tree.clear(),
            Port::Volume => self.volume.clear(),
            Port::Note => self.note.clear(),
            Port::Trouble => self.trouble.clear(),
        }
    }

    /// Tells a write on one port to fail, as `Output::tell`.
    pub fn tell(&mut self, port: Port, nth: u64) -> Result<(), Memory>
        ensures { MatchResult result
            (λ _. self.new ≡ with_output port (record (output_at port self.old) { calls = told nth (output_at port self.old).calls }) self.old)
            (λ _. self.new ≡ self.old) }
    {
        match port {
            Port::Labels => self.labels.tell(nth),
            Port::Tree => self.tree.tell(nth),
            Port::Volume => self.volume.tell(nth),
            Port::Note => self.note.tell(nth),
            Port::Trouble => self.trouble.tell(nth),
        }
    }
}
