ghost use Rattle.std.specs.Prelude.{◌≡◌, ℕ, ◌<◌, ◌≤◌, true, length, MatchResult};
ghost use Rattle.seg_io.specs.Desk.{IsOpen, Fills, FailsAfterReading, Writes, FailsToWrite, appended, FailsAfterWriting};

use crate::desk::{Desk, Failed};
use crate::port::Port;

/// The most bytes that are handed to one write.
pub const PIECE_LENGTH: usize = 16_384;

/// Reads until `into` is full or the input ends, and answers how many bytes were read.
pub fn fill<D: Desk>(desk: &mut D, into: &mut [u8]) -> Result<usize, Failed>
    requires { (D.state desk.old).has_input ≡ true }
    ensures { MatchResult result
        (λ k. Fills k into.old into.new (D.state desk.old) (D.state desk.new))
        (λ _. FailsAfterReading (λ _. length into.old) (D.state desk.old) (D.state desk.new)) }
{
    let mut filled = 0;
    while filled < into.len() {
        let got = desk.read(&mut into[filled..])?;
        if got == 0 {
            break;
        }
        filled += got;
    }
    Ok(filled)
}

/// Writes all of `bytes` at the end of the port. Where it fails, a prefix of them was written.
pub fn put_all<D: Desk>(desk: &mut D, port: Port, bytes: &[u8]) -> Result<(), Failed>
    requires { IsOpen port (D.state desk.old) }
    ensures { MatchResult result
        (λ _. D.state desk.new ≡ appended port bytes.now (D.state desk.old))
        (λ _. FailsAfterWriting port bytes.now (D.state desk.old) (D.state desk.new)) }
{
    let mut written = 0;
    while written < bytes.len() {
        let piece = PIECE_LENGTH.min(bytes.len() - written);
        written += write_piece(desk, port, &bytes[written..written + piece])?;
    }
    Ok(())
}

/// One write, of no more than a piece.
fn write_piece<D: Desk>(desk: &mut D, port: Port, piece: &[u8]) -> Result<usize, Failed>
    requires open { IsOpen port (D.state desk.old) }
    requires some { 0 < length piece.now }
    requires one_piece { length piece.now ≤ PIECE_LENGTH }
    ensures { MatchResult result
        (λ k. Writes k port piece.now (D.state desk.old) (D.state desk.new))
        (λ _. FailsToWrite port (D.state desk.old) (D.state desk.new)) }
{
    desk.write(port, piece)
}
