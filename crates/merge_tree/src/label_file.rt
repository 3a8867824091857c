ghost use Rattle.std.specs.Prelude.{◌≡◌, ◌*◌, ◌≤◌, ◌<◌, ℕ, false, length, take, MatchResult, OnOk};
ghost use Rattle.std.specs.List.{flat_map};
ghost use Rattle.agglo_model.specs.Axes.{Axes};
ghost use Rattle.agglo_model.specs.LabelFile.{label_file, label_header, u32_bytes};
ghost use Rattle.seg_io.specs.Desk.{IsOpen, appended, FailsAfterWriting};
ghost use Rattle.seg_io.specs.Piecing.{Puts, FailsToPut};

use byteorder::{ByteOrder, LittleEndian};
use seg_base::{Dims, Labels};
use seg_io::{Desk, Failed, HEADER_LENGTH, Piecer, Port};

/// The text that a label file begins with.
const MAGIC: &[u8] = b"AFFLAB01";

/// The length of a label in bytes.
const LABEL_LENGTH: usize = 4;

/// How many labels are turned into bytes at a time.
const BLOCK_LABELS: usize = 4096;

/// The bytes of these labels.
const BLOCK_LENGTH: usize = LABEL_LENGTH * BLOCK_LABELS;

/// Writes the label file of these labels at the end of the port: a header of 32 bytes, then each
/// voxel's label in four bytes, the lowest first, in the order of the voxels' numbers: x fastest, then
/// y, then z. It takes no memory. Where a write fails, a prefix of the file was written.
pub fn put_labels<D: Desk>(desk: &mut D, labels: &Labels) -> Result<(), Failed>
    requires { IsOpen Port.Labels (D.state desk.old) }
    ensures { MatchResult result
        (λ _. D.state desk.new ≡ appended Port.Labels (label_file labels.now.axes labels.now.labels) (D.state desk.old))
        (λ _. FailsAfterWriting Port.Labels (label_file labels.now.axes labels.now.labels) (D.state desk.old) (D.state desk.new)) }
{
    let mut piecer = Piecer::new(Port::Labels);
    piecer.put(desk, &header(labels.dims()))?;
    put_list(&mut piecer, desk, labels.list())?;
    piecer.finish(desk)
}

/// The text `AFFLAB01`, the axes, the number of bytes of a label, and eight bytes of zero.
fn header(dims: &Dims) -> [u8; HEADER_LENGTH]
    ensures { result ≡ label_header dims.now }
{
    let mut bytes = [0; HEADER_LENGTH];
    bytes[..8].copy_from_slice(MAGIC);
    LittleEndian::write_u32(&mut bytes[8..], dims.nx());
    LittleEndian::write_u32(&mut bytes[12..], dims.ny());
    LittleEndian::write_u32(&mut bytes[16..], dims.nz());
    LittleEndian::write_u32(&mut bytes[20..], LABEL_LENGTH as u32);
    bytes
}

/// Puts each label as four bytes, a block of labels at a time.
fn put_list<D: Desk>(piecer: &mut Piecer, desk: &mut D, labels: &[u32]) -> Result<(), Failed>
    requires open { IsOpen piecer.old.port (D.state desk.old) }
    requires sound { piecer.old.failed ≡ false }
    ensures { MatchResult result
        (λ _. Puts (flat_map u32_bytes labels.now) piecer.old piecer.new (D.state desk.old) (D.state desk.new))
        (λ _. FailsToPut (flat_map u32_bytes labels.now) piecer.old piecer.new (D.state desk.old) (D.state desk.new)) }
{
    let mut block = [0; BLOCK_LENGTH];
    let mut done = 0;
    while done < labels.len() {
        let count = BLOCK_LABELS.min(labels.len() - done);
        let bytes = &mut block[..LABEL_LENGTH * count];
        LittleEndian::write_u32_into(&labels[done..done + count], bytes);
        piecer.put(desk, bytes)?;
        done += count;
    }
    Ok(())
}
