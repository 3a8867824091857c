ghost use Rattle.std.specs.Prelude.{◌≡◌, ℕ, ◌<◌, ◌≤◌, ◌∷◌, true, length, MatchOption, MatchResult, IfOk};
ghost use Rattle.std.specs.List.{Contains};
ghost use Rattle.seg_io.specs.Desk.{IsListed, IsOpen, CanOpen, OpensInput, FailsToOpenInput, Reads, FailsToRead, OpensOutput, FailsToOpenOutput, Writes, FailsToWrite};
ghost use Rattle.seg_io.specs.InMemory.{new_memory, desk_state, output_at, one_more, OpensInputExactly, FailsToOpenInputExactly, ReadsExactly, FailsToReadExactly, OpensOutputExactly, FailsToOpenOutputExactly, WritesExactly, FailsToWriteExactly};
ghost use Rattle.seg_io.specs.CallKinds.{with_call_told, faults_of};

use crate::call_count::{CallCount, risen};
use crate::desk::{Desk, Failed};
use crate::input_files::InputFiles;
use crate::opened_ports::OpenedPorts;
use crate::output::Outputs;
use crate::port::Port;
use agglo_model::Memory;
use std::alloc::Global;
use std::marker::Model;

/// The calls of a desk, a kind for each count of its own.
#[derive(Clone, Copy)]
pub enum CallKind {
    /// `Desk::open_in`.
    OpenIn,
    /// `Desk::read`.
    Read,
    /// `Desk::open_out`, on whichever port.
    OpenOut,
    /// `Desk::write` on this port.
    Write(Port),
}

/// The sides of a desk that count faults.
#[derive(Clone, Copy)]
pub enum Side {
    /// The input: it is opened and read.
    Input,
    /// The ports but for Trouble: they are opened and written.
    Output,
    /// The port Trouble, which is written.
    Trouble,
}

/// A desk in memory, which tells everything.
///
/// Four things make a call fail, and nothing else does: `fail_call` asked for it, the input has an
/// unknown name, the name of an output does not fit into the room, or a port has no room left. The
/// calls of the trait take no memory.
#[derive(Drop)]
pub struct MemoryDesk {
    most: usize,
    input: InputFiles,
    opened: OpenedPorts,
    outputs: Outputs,
    input_faults: u64,
    output_faults: u64,
    trouble_faults: u64,
    misses: u64,
    opening_in: CallCount,
    reading: CallCount,
    opening_out: CallCount,
}

impl Model for MemoryDesk {
    ghost use Rattle.std.specs.Prelude.{◌≤◌};
    ghost use Rattle.seg_io.specs.InMemory.{MemoryState};

    ghost Value = { MemoryState };

    ghost view = { λ d. record {
      most = d.most;
      input = d.input;
      opened = d.opened;
      outputs = d.outputs;
      input_faults = d.input_faults;
      output_faults = d.output_faults;
      trouble_faults = d.trouble_faults;
      misses = d.misses;
      opening_in = d.opening_in;
      reading = d.reading;
      opening_out = d.opening_out;
    } };

    ghost invariant = { λ d. 1 ≤ d.most };
}

impl MemoryDesk {
    /// A desk with no file, and with room for so many bytes on each port and in each name that a
    /// port is opened under.
    pub fn new(alloc: Global, room: usize) -> Result<MemoryDesk, Memory>
        ensures { IfOk result (λ desk. desk ≡ new_memory room) }
    {
        Ok(MemoryDesk {
            most: usize::MAX,
            input: InputFiles::new(alloc),
            opened: OpenedPorts::new(alloc, room)?,
            outputs: Outputs::new(alloc, room)?,
            input_faults: 0,
            output_faults: 0,
            trouble_faults: 0,
            misses: 0,
            opening_in: CallCount::new(alloc),
            reading: CallCount::new(alloc),
            opening_out: CallCount::new(alloc),
        })
    }

    /// Adds a file, in the place of an earlier one of this name. An input that is open stays as it
    /// is. Where memory runs out nothing changes.
    pub fn add_file(&mut self, name: &str, bytes: &[u8]) -> Result<(), Memory>
        ensures { MatchResult result
            (λ _. self.new ≡ record self.old {
              input = record self.old.input { files = record { name = name.now; bytes = bytes.now } ∷ self.old.input.files };
            })
            (λ _. self.new ≡ self.old) }
    {
        self.input.add(name, bytes)
    }

    /// Asks for a failure of the call of this kind with this number, counted from 1. There is no call
    /// with number 0, and one that was made is over: these change nothing that comes. Where memory
    /// runs out nothing changes.
    pub fn fail_call(&mut self, kind: CallKind, nth: u64) -> Result<(), Memory>
        ensures { MatchResult result (λ _. self.new ≡ with_call_told kind nth self.old) (λ _. self.new ≡ self.old) }
    {
        match kind {
            CallKind::OpenIn => self.opening_in.tell(nth),
            CallKind::Read => self.reading.tell(nth),
            CallKind::OpenOut => self.opening_out.tell(nth),
            CallKind::Write(port) => self.outputs.tell(port, nth),
        }
    }

    /// Lets reads and writes take no more than `k` bytes a call.
    pub fn at_most(&mut self, k: usize)
        requires { 1 ≤ k }
        ensures { self.new ≡ record self.old { most = k } }
    {
        self.most = k;
    }

    /// What was written on a port since it was opened.
    pub fn written(&self, port: Port) -> &[u8]
        ensures { result.now ≡ (output_at port self.now.outputs).bytes }
    {
        self.outputs.bytes(port)
    }

    /// How many bytes of the input are left.
    pub fn left(&self) -> usize
        ensures { result ≡ length self.now.input.left }
    {
        self.input.left()
    }

    /// How many ports were opened.
    pub fn opened(&self) -> u32
        ensures { result ≡ length self.now.opened.list }
    {
        self.opened.len() as u32
    }

    /// The name that a port was opened under. None where no call opened it.
    pub fn opened_name(&self, port: Port) -> Option<&str>
        ensures { MatchOption result
            (¬ (IsListed port self.now.opened.list))
            (λ name. Contains self.now.opened.list (record { port = port; name = name.now })) }
    {
        self.opened.name_of(port)
    }

    /// How many calls of a side failed; the count stands still at its last value.
    pub fn faults(&self, side: Side) -> u64
        ensures { result ≡ faults_of side self.now }
    {
        match side {
            Side::Input => self.input_faults,
            Side::Output => self.output_faults,
            Side::Trouble => self.trouble_faults,
        }
    }
}

impl Desk for MemoryDesk {
    ghost state = { desk_state };

    fn open_in(&mut self, name: &str) -> Result<(), Failed>
        ensures as_desk { MatchResult result
            (λ _. OpensInput name.now (desk_state self.old) (desk_state self.new))
            (λ _. FailsToOpenInput name.now (desk_state self.old) (desk_state self.new)) }
        ensures exactly { MatchResult result
            (λ _. OpensInputExactly name.now self.old self.new)
            (λ _. FailsToOpenInputExactly name.now self.old self.new) }
    {
        let due = self.opening_in.count();
        let found = self.input.open(name);
        if !found {
            self.misses = risen(self.misses);
        }
        if due || !found {
            self.input.close();
            self.input_faults = risen(self.input_faults);
            return Err(Failed);
        }
        Ok(())
    }

    fn read(&mut self, into: &mut [u8]) -> Result<usize, Failed>
        requires open { (desk_state self.old).has_input ≡ true }
        requires room { 0 < length into.old }
        ensures as_desk { MatchResult result
            (λ k. Reads k into.old into.new (desk_state self.old) (desk_state self.new))
            (λ _. FailsToRead (desk_state self.old) (desk_state self.new)) }
        ensures exactly { MatchResult result
            (λ k. ReadsExactly k into.old into.new self.old self.new)
            (λ _. FailsToReadExactly self.old self.new) }
    {
        if self.reading.count() {
            self.input_faults = risen(self.input_faults);
            return Err(Failed);
        }
        Ok(self.input.read(self.most, into))
    }

    fn open_out(&mut self, port: Port, name: &str) -> Result<(), Failed>
        requires { CanOpen port (desk_state self.old) }
        ensures as_desk { MatchResult result
            (λ _. OpensOutput port name.now (desk_state self.old) (desk_state self.new))
            (λ _. FailsToOpenOutput (desk_state self.old) (desk_state self.new)) }
        ensures exactly { MatchResult result
            (λ _. OpensOutputExactly port name.now self.old self.new)
            (λ _. FailsToOpenOutputExactly name.now self.old self.new) }
    {
        let due = self.opening_out.count();
        if due || self.opened.is_long(name) {
            self.output_faults = risen(self.output_faults);
            return Err(Failed);
        }
        self.outputs.clear(port);
        self.opened.push(port, name);
        Ok(())
    }

    fn write(&mut self, port: Port, bytes: &[u8]) -> Result<usize, Failed>
        requires open { IsOpen port (desk_state self.old) }
        requires some { 0 < length bytes.now }
        ensures as_desk { MatchResult result
            (λ k. Writes k port bytes.now (desk_state self.old) (desk_state self.new))
            (λ _. FailsToWrite port (desk_state self.old) (desk_state self.new)) }
        ensures exactly { MatchResult result
            (λ k. WritesExactly k port bytes.now self.old self.new)
            (λ _. FailsToWriteExactly port self.old self.new) }
    {
        if let Some(taken) = self.outputs.write(port, self.most, bytes) {
            return Ok(taken);
        }
        match port {
            Port::Trouble => self.trouble_faults = risen(self.trouble_faults),
            Port::Labels | Port::Tree | Port::Volume | Port::Note => {
                self.output_faults = risen(self.output_faults);
            }
        }
        Err(Failed)
    }
}
