ghost use Rattle.std.specs.Prelude.{◌≡◌, ◌≤◌, ◌+◌, true, MatchResult, vec_len};
ghost use Rattle.agglo_model.specs.Axes.{edge_count};
ghost use Rattle.seg_io.specs.Desk.{FailsAfterReading};
ghost use Rattle.volume_file.specs.Reading.{ReadsBody, FailsToReadBody};
ghost use Rattle.volume_file.specs.Pieces.{ReadsBytes, FailsToReadBytes, AppendsPiece, FailsToAppend, FindsMore};

use crate::fault::VolumeFault;
use crate::volume::{Head, Volume};
use seg_io::{Desk, Failed, fill};
use std::alloc::Global;

/// How many bytes of a body are read at a time.
const READ_LENGTH: usize = 1 << 18;

/// Reads the body that follows this header, up to the end of the input.
///
/// Answers `Truncated` or `Trailing` where the body has another length than the header says, `Read`
/// or `Memory`. One byte after the body is read to find out whether there is one.
pub fn read_body<D: Desk>(alloc: Global, desk: &mut D, head: Head) -> Result<Volume, VolumeFault>
    requires { (D.state desk.old).has_input ≡ true }
    ensures { MatchResult result
        (λ volume. ReadsBody head.dims volume (D.state desk.old) (D.state desk.new))
        (λ fault. FailsToReadBody head.dims fault (D.state desk.old) (D.state desk.new)) }
{
    let length = head.dims.body_len() as usize;
    let body = read_bytes(alloc, desk, length)?;
    if has_more(desk)? {
        return Err(VolumeFault::Trailing);
    }
    Ok(Volume::of(head, body))
}

/// Reads so many bytes. The memory for all of them is taken first.
fn read_bytes<D: Desk>(alloc: Global, desk: &mut D, length: usize) -> Result<Vec<u8>, VolumeFault>
    requires open { (D.state desk.old).has_input ≡ true }
    requires fits { length ≤ 4294967295 }
    ensures { MatchResult result
        (λ bytes. ReadsBytes length bytes.items (D.state desk.old) (D.state desk.new))
        (λ fault. FailsToReadBytes length fault (D.state desk.old) (D.state desk.new)) }
{
    let mut bytes = Vec::with_capacity(alloc, length)?;
    while bytes.len() < length {
        let before = bytes.len();
        let count = READ_LENGTH.min(length - before);
        let got = append_piece(desk, &mut bytes, count)?;
        if got < count {
            return Err(VolumeFault::Truncated((before + got) as u32));
        }
    }
    Ok(bytes)
}

/// Reads `count` bytes to the end of `bytes`, and answers how many there were; what is lacking is 0.
fn append_piece<D: Desk>(
    desk: &mut D,
    bytes: &mut Vec<u8>,
    count: usize,
) -> Result<usize, VolumeFault>
    requires open { (D.state desk.old).has_input ≡ true }
    requires fits { vec_len bytes.old + count ≤ 4294967295 }
    ensures { MatchResult result
        (λ got. AppendsPiece got count bytes.old.items bytes.new.items (D.state desk.old) (D.state desk.new))
        (λ fault. FailsToAppend count fault (D.state desk.old) (D.state desk.new)) }
{
    let start = bytes.len();
    bytes.resize(start + count, 0)?;
    let got = fill(desk, &mut bytes[start..])?;
    Ok(got)
}

/// Whether a byte is left of the input. One is taken off.
fn has_more<D: Desk>(desk: &mut D) -> Result<bool, Failed>
    requires { (D.state desk.old).has_input ≡ true }
    ensures { MatchResult result
        (λ more. FindsMore more (D.state desk.old) (D.state desk.new))
        (λ _. FailsAfterReading (λ _. 1) (D.state desk.old) (D.state desk.new)) }
{
    let mut byte = [0];
    let got = fill(desk, &mut byte)?;
    Ok(got > 0)
}
