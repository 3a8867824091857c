ghost use Rattle.std.specs.Prelude.{◌≡◌, ℕ, ◌+◌, ◌-◌, ◌<◌, ◌≤◌, ◌++◌, false, length, take, min, MatchResult};
ghost use Rattle.seg_io.specs.Desk.{IsOpen, appended, FailsAfterWriting};
ghost use Rattle.seg_io.specs.Piecing.{PiecerState, new_piecer, Puts, FailsToPut};

use crate::desk::{Desk, Failed};
use crate::pieces::{PIECE_LENGTH, put_all};
use crate::port::Port;
use std::marker::Model;

/// Gathers bytes for a port, and writes them in whole pieces of `PIECE_LENGTH` bytes; `finish`
/// writes the rest. It takes no memory but its own array.
#[derive(Drop)]
pub struct Piecer {
    port: Port,
    held: [u8; PIECE_LENGTH],
    length: usize,
    failed: bool,
}

impl Model for Piecer {
    ghost use Rattle.std.specs.Prelude.{◌<◌, take};
    ghost use Rattle.seg_io.specs.Piecing.{PiecerState};

    ghost Value = { PiecerState };

    ghost view = { λ p. record { port = p.port; held = take p.length p.held; failed = p.failed } };

    ghost invariant = { λ p. p.length < 16384 };
}

impl Piecer {
    /// A Piecer for this port that holds nothing.
    pub fn new(port: Port) -> Piecer
        ensures { result ≡ new_piecer port }
    {
        Piecer {
            port,
            held: [0; PIECE_LENGTH],
            length: 0,
            failed: false,
        }
    }

    /// Puts these bytes after those that it was given before. Where it fails, a prefix of what it
    /// held, followed by `bytes`, was written, and it is used no more.
    pub fn put<D: Desk>(&mut self, desk: &mut D, bytes: &[u8]) -> Result<(), Failed>
        requires open { IsOpen self.old.port (D.state desk.old) }
        requires sound { self.old.failed ≡ false }
        ensures { MatchResult result
            (λ _. Puts bytes.now self.old self.new (D.state desk.old) (D.state desk.new))
            (λ _. FailsToPut bytes.now self.old self.new (D.state desk.old) (D.state desk.new)) }
    {
        let mut taken = 0;
        while taken < bytes.len() {
            taken += self.put_some(desk, &bytes[taken..])?;
        }
        Ok(())
    }

    /// Writes what is held. Where it fails, a prefix of that was written.
    pub fn finish<D: Desk>(self, desk: &mut D) -> Result<(), Failed>
        requires open { IsOpen self.port (D.state desk.old) }
        requires sound { self.failed ≡ false }
        ensures { MatchResult result
            (λ _. D.state desk.new ≡ appended self.port self.held (D.state desk.old))
            (λ _. FailsAfterWriting self.port self.held (D.state desk.old) (D.state desk.new)) }
    {
        put_all(desk, self.port, &self.held[..self.length])
    }

    /// Puts as many of the bytes as the array has room for, and writes it where it is full then.
    fn put_some<D: Desk>(&mut self, desk: &mut D, bytes: &[u8]) -> Result<usize, Failed>
        requires open { IsOpen self.old.port (D.state desk.old) }
        requires sound { self.old.failed ≡ false }
        requires some { 0 < length bytes.now }
        ensures { MatchResult result
            (λ k. (0 < k) × (k ≤ length bytes.now)
            × Puts (take k bytes.now) self.old self.new (D.state desk.old) (D.state desk.new))
            (λ _. FailsToPut bytes.now self.old self.new (D.state desk.old) (D.state desk.new)) }
    {
        let taken = copy_to(&mut self.held, self.length, bytes);
        self.length += taken;
        if self.length < PIECE_LENGTH {
            return Ok(taken);
        }
        self.length = 0;
        match put_all(desk, self.port, &self.held) {
            Ok(()) => Ok(taken),
            Err(failed) => {
                self.failed = true;
                Err(failed)
            }
        }
    }
}

/// Copies as many of the bytes as there is room for to this place of a piece, and answers how many.
fn copy_to(piece: &mut [u8; PIECE_LENGTH], at: usize, bytes: &[u8]) -> usize
    requires { at ≤ PIECE_LENGTH }
    ensures count { result ≡ min (length bytes.now) (PIECE_LENGTH - at) }
    ensures front { take (at + result) piece.new ≡ take at piece.old ++ take result bytes.now }
{
    let count = bytes.len().min(PIECE_LENGTH - at);
    piece[at..at + count].copy_from_slice(&bytes[..count]);
    count
}
