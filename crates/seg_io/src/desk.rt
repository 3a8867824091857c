ghost use Rattle.std.specs.Prelude.{◌≡◌, ℕ, ◌<◌, true, length, MatchResult};
ghost use Rattle.seg_io.specs.Desk.{DeskState, IsOpen, CanOpen, OpensInput, FailsToOpenInput, Reads, FailsToRead, OpensOutput, FailsToOpenOutput, Writes, FailsToWrite};

use crate::port::Port;

/// A fault of the outside: a device, or a name that no file has.
#[derive(Clone, Copy, Debug)]
pub struct Failed;

/// What the program sees of the world: one input at a time, and five ports to write on.
///
/// Every meaning of a desk is a field of its ghost `state`, and each call says what it makes of
/// that state: all that it does not name stays. With a failure the count of faults of the call's
/// kind goes up, unless it is at its end.
pub trait Desk {
    ghost state: { Self → DeskState };

    /// Opens the file of this name as the input, in the place of one that was open.
    fn open_in(&mut self, name: &str) -> Result<(), Failed>
        ensures { MatchResult result
            (λ _. OpensInput name.now (state self.old) (state self.new))
            (λ _. FailsToOpenInput name.now (state self.old) (state self.new)) };

    /// Takes some bytes off the input, and answers how many: 0 only at the end.
    fn read(&mut self, into: &mut [u8]) -> Result<usize, Failed>
        requires open { (state self.old).has_input ≡ true }
        requires room { 0 < length into.old }
        ensures { MatchResult result
            (λ k. Reads k into.old into.new (state self.old) (state self.new))
            (λ _. FailsToRead (state self.old) (state self.new)) };

    /// Opens a port to a file of this name, with nothing written.
    fn open_out(&mut self, port: Port, name: &str) -> Result<(), Failed>
        requires { CanOpen port (state self.old) }
        ensures { MatchResult result
            (λ _. OpensOutput port name.now (state self.old) (state self.new))
            (λ _. FailsToOpenOutput (state self.old) (state self.new)) };

    /// Writes some of the bytes at the end of a port, and answers how many: at least one.
    fn write(&mut self, port: Port, bytes: &[u8]) -> Result<usize, Failed>
        requires open { IsOpen port (state self.old) }
        requires some { 0 < length bytes.now }
        ensures { MatchResult result
            (λ k. Writes k port bytes.now (state self.old) (state self.new))
            (λ _. FailsToWrite port (state self.old) (state self.new)) };
}
