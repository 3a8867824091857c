ghost use Rattle.std.specs.Prelude.{◌≡◌, MatchResult};
ghost use Rattle.agglo_model.specs.VolumeFile.{volume_bytes, volume_header};
ghost use Rattle.seg_io.specs.Desk.{IsOpen, appended, FailsAfterWriting};

use crate::reading::{CHANNELS, MAGIC};
use crate::volume::Volume;
use byteorder::{ByteOrder, LittleEndian};
use seg_base::Dims;
use seg_io::{Desk, Failed, HEADER_LENGTH, Piecer, Port};

/// Writes the file of a volume at the end of the port: a header of 32 bytes, then the byte of each edge
/// number. It takes no memory. Where a write fails, a prefix of the file was written.
pub fn write_volume<D: Desk>(desk: &mut D, port: Port, volume: &Volume) -> Result<(), Failed>
    requires { IsOpen port (D.state desk.old) }
    ensures { MatchResult result
        (λ _. D.state desk.new ≡ appended port (volume_bytes volume.now) (D.state desk.old))
        (λ _. FailsAfterWriting port (volume_bytes volume.now) (D.state desk.old) (D.state desk.new)) }
{
    let mut piecer = Piecer::new(port);
    piecer.put(desk, &header(volume.dims()))?;
    piecer.put(desk, volume.bytes())?;
    piecer.finish(desk)
}

/// The text `AFFVOL01`, the axes, the number of channels, and eight bytes of zero.
pub fn header(dims: &Dims) -> [u8; HEADER_LENGTH]
    ensures { result ≡ volume_header dims.now }
{
    let mut bytes = [0; HEADER_LENGTH];
    bytes[..8].copy_from_slice(MAGIC);
    LittleEndian::write_u32(&mut bytes[8..], dims.nx());
    LittleEndian::write_u32(&mut bytes[12..], dims.ny());
    LittleEndian::write_u32(&mut bytes[16..], dims.nz());
    LittleEndian::write_u32(&mut bytes[20..], CHANNELS);
    bytes
}
