ghost use Rattle.std.specs.Prelude.{◌≡◌, ◌≤◌, [], ◌∷◌, ◌++◌, OnOk, OnErr, IfOk, length};
ghost use Rattle.agglo_program.specs.FileDesk.{opened_ports, new_desk};

use seg_io::{Desk, Failed, Port};
use std::alloc::Global;
use std::io;
use std::io::{Read, Write};
use std::marker::Model;
use std::rt::Files;
use std::str::from_utf8;

/// A port that was opened, and a copy of the name of its file.
#[derive(Drop)]
struct OpenedPort {
    port: Port,
    name: String,
}

/// The files that stand behind the ports, where they were opened, and the ports in that order.
#[derive(Drop)]
struct Outputs<F> {
    labels: Option<F>,
    tree: Option<F>,
    volume: Option<F>,
    opened: Vec<OpenedPort>,
}

/// The desk over real files, standard output (`Note`) and standard error (`Trouble`).
///
/// Every fault of the outside is counted, also one for want of memory to copy a name. What files
/// hold is not told: this is where proof ends and trust in the system begins.
#[derive(Drop)]
pub struct FileDesk<R: Files> {
    rt: R,
    alloc: Global,
    input: Option<R::File>,
    outputs: Outputs<R::File>,
    input_faults: u64,
    output_faults: u64,
    trouble_faults: u64,
}

impl<R: Files> Model for FileDesk<R> {
    ghost use Rattle.std.specs.Prelude.{None, is_some};
    ghost use Rattle.seg_io.specs.Desk.{DeskState};

    ghost Value = { DeskState };

    ghost use Rattle.agglo_program.specs.FileDesk.{opened_ports};

    ghost view = { λ desk. record {
      input_faults = desk.input_faults;
      output_faults = desk.output_faults;
      trouble_faults = desk.trouble_faults;
      files = None;
      misses = 0;
      has_input = is_some desk.input;
      input = None;
      labels = None;
      tree = None;
      volume = None;
      note = None;
      trouble = None;
      opened = opened_ports desk.outputs.opened.items;
    } };
}

impl<R: Files> FileDesk<R> {
    /// A desk with no input, no port opened but the two that always are, and no fault.
    pub fn new(rt: R, alloc: Global) -> FileDesk<R>
        ensures { result ≡ new_desk }
    {
        let outputs = Outputs {
            labels: None,
            tree: None,
            volume: None,
            opened: Vec::new(alloc),
        };
        FileDesk {
            rt,
            alloc,
            input: None,
            outputs,
            input_faults: 0,
            output_faults: 0,
            trouble_faults: 0,
        }
    }
}

impl<F: Write + Drop> Outputs<F> {
    /// Creates the file, or empties it, after a copy of its name was made.
    fn create<R: Files<File = F>>(
        &mut self,
        rt: &R,
        alloc: Global,
        port: Port,
        name: &str,
    ) -> io::Result<()>
        ensures ok { OnOk result (opened_ports self.new.opened.items
            ≡ opened_ports self.old.opened.items ++ record { port = port; name = name.now } ∷ []) }
        ensures err { OnErr result (self.new.opened.items ≡ self.old.opened.items) }
    {
        let copy = String::from_str(alloc, name)?;
        self.opened.reserve(1)?;
        let file = std::fs::create(rt, name)?;
        match port {
            Port::Labels => self.labels = Some(file),
            Port::Tree => self.tree = Some(file),
            Port::Volume => self.volume = Some(file),
            Port::Note | Port::Trouble => {}
        }
        self.opened.push(OpenedPort { port, name: copy })?;
        Ok(())
    }

    /// Writes some of the bytes to what the port stands for.
    fn write_some<R: Print + Eprint>(
        &mut self,
        rt: &R,
        port: Port,
        bytes: &[u8],
    ) -> io::Result<usize>
        ensures room { IfOk result (λ written. written ≤ length bytes.now) }
        ensures same { self.new.opened ≡ self.old.opened }
    {
        match port {
            Port::Labels => write_to(&mut self.labels, bytes),
            Port::Tree => write_to(&mut self.tree, bytes),
            Port::Volume => write_to(&mut self.volume, bytes),
            Port::Note => rt.write_some(bytes),
            Port::Trouble => write_error(rt, bytes),
        }
    }
}

fn write_to<F: Write>(file: &mut Option<F>, bytes: &[u8]) -> io::Result<usize>
    ensures room { IfOk result (λ written. written ≤ length bytes.now) }
{
    match file {
        Some(file) => file.write(bytes),
        None => Err(io::Error::from(io::ErrorKind::NotFound)),
    }
}

fn write_error(rt: &impl Eprint, bytes: &[u8]) -> io::Result<usize>
    ensures room { IfOk result (λ written. written ≤ length bytes.now) }
{
    match from_utf8(bytes) {
        Ok(text) => rt.eprint(text)?,
        Err(_) => return Err(io::Error::from(io::ErrorKind::InvalidInput)),
    }
    Ok(bytes.len())
}

impl<R: Files + Print + Eprint> Desk for FileDesk<R> {
    ghost state = { λ desk. desk };

    fn open_in(&mut self, name: &str) -> Result<(), Failed> {
        match std::fs::open(&self.rt, name) {
            Ok(file) => {
                self.input = Some(file);
                Ok(())
            }
            Err(_) => {
                self.input = None;
                self.input_faults = self.input_faults.saturating_add(1);
                Err(Failed)
            }
        }
    }

    fn read(&mut self, into: &mut [u8]) -> Result<usize, Failed> {
        let read = match &mut self.input {
            Some(file) => file.read(into).ok(),
            None => None,
        };
        if read.is_none() {
            self.input_faults = self.input_faults.saturating_add(1);
        }
        read.ok_or(Failed)
    }

    fn open_out(&mut self, port: Port, name: &str) -> Result<(), Failed> {
        match self.outputs.create(&self.rt, self.alloc, port, name) {
            Ok(()) => Ok(()),
            Err(_) => {
                self.output_faults = self.output_faults.saturating_add(1);
                Err(Failed)
            }
        }
    }

    fn write(&mut self, port: Port, bytes: &[u8]) -> Result<usize, Failed> {
        match self.outputs.write_some(&self.rt, port, bytes) {
            Ok(written) if written > 0 => return Ok(written),
            _ => {}
        }
        match port {
            Port::Trouble => self.trouble_faults = self.trouble_faults.saturating_add(1),
            _ => self.output_faults = self.output_faults.saturating_add(1),
        }
        Err(Failed)
    }
}
