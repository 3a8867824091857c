ghost use Rattle.std.specs.Prelude.{◌≡◌, ◌≤◌, ◌<◌, true, length, MatchResult};
ghost use Rattle.merge_tree.specs.TreeReading.{ReadsUpTo, FailsToRead, AppendsPiece};

use crate::tree_fault::InputFault;
use seg_io::{Desk, PIECE_LENGTH, fill};
use std::alloc::Global;

/// Reads so many bytes, or as many as there are up to the end of the input. Memory is taken as they
/// come.
pub fn read_up_to<D: Desk>(alloc: Global, desk: &mut D, most: usize) -> Result<Vec<u8>, InputFault>
    requires { (D.state desk.old).has_input ≡ true }
    ensures { MatchResult result
        (λ bytes. ReadsUpTo most bytes.items (D.state desk.old) (D.state desk.new))
        (λ fault. FailsToRead most fault (D.state desk.old) (D.state desk.new)) }
{
    let mut bytes = Vec::new(alloc);
    let mut piece = [0; PIECE_LENGTH];
    while bytes.len() < most {
        let count = PIECE_LENGTH.min(most - bytes.len());
        let got = append_piece(desk, &mut bytes, &mut piece[..count])?;
        if got < count {
            break;
        }
    }
    Ok(bytes)
}

/// Fills the piece as far as the input goes, appends what came to `bytes`, and answers how much.
fn append_piece<D: Desk>(
    desk: &mut D,
    bytes: &mut Vec<u8>,
    piece: &mut [u8],
) -> Result<usize, InputFault>
    requires { (D.state desk.old).has_input ≡ true }
    ensures { MatchResult result
        (λ got. AppendsPiece got (length piece.old) bytes.old.items bytes.new.items (D.state desk.old) (D.state desk.new))
        (λ fault. FailsToRead (length piece.old) fault (D.state desk.old) (D.state desk.new)) }
{
    let got = fill(desk, piece)?;
    bytes.extend_from_slice(&piece[..got])?;
    Ok(got)
}
