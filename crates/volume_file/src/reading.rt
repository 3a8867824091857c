ghost use Rattle.std.specs.Prelude.{◌≡◌, ◌==◌, ◌≤◌, None, Some, true, length, MatchResult};
ghost use Rattle.std.specs.List.{list_all};
ghost use Rattle.std.specs.Option.{option_map};
ghost use Rattle.agglo_model.specs.VolumeFile.{header_flaw, header_axes};
ghost use Rattle.volume_file.specs.Fault.{fault_of};
ghost use Rattle.volume_file.specs.Reading.{ReadsHead, FailsToReadHead, ReadsVolume, FailsToReadVolume};

use crate::body::read_body;
use crate::fault::VolumeFault;
use crate::volume::{Head, Volume};
use seg_base::Dims;
use seg_io::{Desk, HEADER_LENGTH, fill, u32_at};
use std::alloc::Global;

/// The text that a volume file begins with.
pub(crate) const MAGIC: &[u8] = b"AFFVOL01";

/// How many affinities each voxel has.
pub(crate) const CHANNELS: u32 = 3;

/// Reads the header of a volume file, and nothing after it. It takes no memory.
///
/// Answers the first fault of the header, up to the number of voxels, or `Read`.
pub fn read_head<D: Desk>(desk: &mut D) -> Result<Head, VolumeFault>
    requires { (D.state desk.old).has_input ≡ true }
    ensures { MatchResult result
        (λ head. ReadsHead head.dims (D.state desk.old) (D.state desk.new))
        (λ fault. FailsToReadHead fault (D.state desk.old) (D.state desk.new)) }
{
    let mut header = [0; HEADER_LENGTH];
    let got = fill(desk, &mut header)?;
    head_of(&header[..got])
}

/// Reads a volume file to its end: the header, then the body. Answers the first fault of the file,
/// `Read` or `Memory`.
pub fn read_volume<D: Desk>(alloc: Global, desk: &mut D) -> Result<Volume, VolumeFault>
    requires { (D.state desk.old).has_input ≡ true }
    ensures { MatchResult result
        (λ volume. ReadsVolume volume (D.state desk.old) (D.state desk.new))
        (λ fault. FailsToReadVolume fault (D.state desk.old) (D.state desk.new)) }
{
    let head = read_head(desk)?;
    read_body(alloc, desk, head)
}

/// What the bytes of a header say.
#[tactic(auto, using(std::proofs::lemmas::Bool::Decides::nat_tests, crate::proofs::Header::all_zero), unfolding(agglo_model::specs::VolumeFile::header_flaw))]
fn head_of(header: &[u8]) -> Result<Head, VolumeFault>
    requires { length header.now ≤ HEADER_LENGTH }
    ensures { MatchResult result
        (λ head. (header_flaw header.now ≡ None) × (head.dims ≡ header_axes header.now))
        (λ fault. option_map fault_of (header_flaw header.now) ≡ Some fault) }
{
    if header.len() < HEADER_LENGTH {
        return Err(VolumeFault::ShortHeader(header.len() as u32));
    }
    if !header.starts_with(MAGIC) {
        return Err(VolumeFault::Magic);
    }
    let channels = u32_at(header, 20);
    if channels != CHANNELS {
        return Err(VolumeFault::Channels(channels));
    }
    if !are_zero(&header[24..32]) {
        return Err(VolumeFault::Reserved);
    }
    let dims = Dims::new(u32_at(header, 8), u32_at(header, 12), u32_at(header, 16))?;
    Ok(Head { dims, version: 1 })
}

/// Whether each byte is zero.
fn are_zero(bytes: &[u8]) -> bool
    ensures { result ≡ list_all (λ byte. byte == 0) bytes.now }
{
    bytes.iter().all(|&byte| byte == 0)
}
