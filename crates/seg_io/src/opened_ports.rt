ghost use Rattle.std.specs.Prelude.{◌≡◌, ℕ, ◌<◌, ◌≤◌, ◌↔◌, ◌∷◌, ◌++◌, [], IsTrue, length, MatchOption, IfOk};
ghost use Rattle.std.specs.List.{Contains};
ghost use Rattle.seg_io.specs.Desk.{Opened, IsListed};
ghost use Rattle.seg_io.specs.InMemory.{OpenedState, IsFresh};

use crate::port::Port;
use std::alloc::{AllocError, Global};
use std::marker::Model;

/// A port that was opened, and the name that it was opened under.
#[derive(Drop)]
pub struct OpenedPort {
    port: Port,
    name: String,
}

impl Model for OpenedPort {
    ghost use Rattle.std.specs.Prelude.{string_bytes};
    ghost use Rattle.seg_io.specs.Desk.{Opened};

    ghost Value = { Opened };

    ghost view = { λ o. record { port = o.port; name = string_bytes o.name } };
}

impl OpenedPort {
    /// Whether it is this port.
    fn is_of(&self, port: Port) -> bool
        ensures { IsTrue result ↔ (self.now.port ≡ port) }
    {
        self.port == port
    }

    /// The name that it was opened under.
    fn name(&self) -> &str
        ensures { result.now ≡ self.now.name }
    {
        self.name.as_str()
    }
}

/// The ports that were opened, in order. The three names that there can be have their memory from
/// the start, so that opening a port takes none.
#[derive(Drop)]
pub struct OpenedPorts {
    list: Vec<OpenedPort>,
    spare: Vec<String>,
    room: usize,
}

impl Model for OpenedPorts {
    ghost use Rattle.std.specs.Prelude.{◌≡◌, ◌≤◌, ◌+◌, All, length, string_len, vec_capacity};
    ghost use Rattle.std.specs.String.{string_capacity};
    ghost use Rattle.seg_io.specs.InMemory.{OpenedState, AreDistinct};

    ghost Value = { OpenedState };

    ghost view = { λ o. record { list = o.list.items; room = o.room } };

    ghost invariant = { λ o. AreDistinct o.list.items
        × (length o.list.items + length o.spare.items ≡ 3)
        × (3 ≤ vec_capacity o.list)
        × All (λ name. (string_len name ≡ 0) × (o.room ≤ string_capacity name)) o.spare.items };
}

impl OpenedPorts {
    /// No port, and room for so many bytes in each name.
    pub fn new(alloc: Global, room: usize) -> Result<OpenedPorts, AllocError>
        ensures { IfOk result (λ opened. opened ≡ record { list = []; room = room }) }
    {
        let list = Vec::with_capacity(alloc, 3)?;
        let mut spare = Vec::with_capacity(alloc, 3)?;
        spare.push(String::with_capacity(alloc, room)?)?;
        spare.push(String::with_capacity(alloc, room)?)?;
        spare.push(String::with_capacity(alloc, room)?)?;
        Ok(OpenedPorts { list, spare, room })
    }

    /// How many ports were opened.
    pub fn len(&self) -> usize
        ensures count { result ≡ length self.now.list }
        ensures few { result ≤ 3 }
    {
        self.list.len()
    }

    /// Whether the name is too long to be kept.
    pub fn is_long(&self, name: &str) -> bool
        ensures { IsTrue result ↔ (self.now.room < length name.now) }
    {
        name.len() > self.room
    }

    /// Adds a port that was not opened before, with the name that it is opened under.
    pub fn push(&mut self, port: Port, name: &str)
        requires fresh { IsFresh port self.old.list }
        requires short { length name.now ≤ self.old.room }
        ensures { self.new ≡ record self.old { list = self.old.list ++ record { port = port; name = name.now } ∷ [] } }
    {
        let Some(mut text) = self.spare.pop() else {
            unreachable!()
        };
        if text.push_str(name).is_err() {
            unreachable!()
        }
        if self.list.push(OpenedPort { port, name: text }).is_err() {
            unreachable!()
        }
    }

    /// The name that a port was opened under.
    pub fn name_of(&self, port: Port) -> Option<&str>
        ensures { MatchOption result
            (¬ (IsListed port self.now.list))
            (λ name. Contains self.now.list (record { port = port; name = name.now })) }
    {
        for opened in self.list.iter() {
            if opened.is_of(port) {
                return Some(opened.name());
            }
        }
        None
    }
}
