ghost use Rattle.std.specs.Prelude.{◌≡◌, ◌+◌, ◌*◌, ◌≤◌, ◌++◌, false, length, take, MatchResult};
ghost use Rattle.std.specs.List.{flat_map};
ghost use Rattle.agglo_model.specs.MergeTree.{merge_bytes, tree_header};
ghost use Rattle.agglo_model.specs.TreeFile.{tree_bytes};
ghost use Rattle.seg_io.specs.Desk.{IsOpen, appended, FailsAfterWriting};
ghost use Rattle.seg_io.specs.Piecing.{Puts, FailsToPut};

use crate::merge::Merge;
use crate::tree::Tree;
use crate::tree_reading::MAGIC;
use crate::tree_records::RECORD_LENGTH;
use byteorder::{ByteOrder, LittleEndian};
use seg_io::{Desk, Failed, HEADER_LENGTH, Piecer, Port};

/// How many merges are turned into bytes at a time.
const BLOCK_MERGES: usize = 512;

/// The bytes of these merges.
const BLOCK_LENGTH: usize = RECORD_LENGTH * BLOCK_MERGES;

/// Writes the tree file of this tree at the end of the port: a header of 32 bytes, then a record of
/// 32 bytes for each merge in order. It takes no memory. Where a write fails, a prefix of the file was
/// written.
pub fn put_tree<D: Desk>(desk: &mut D, tree: &Tree) -> Result<(), Failed>
    requires { IsOpen Port.Tree (D.state desk.old) }
    ensures { MatchResult result
        (λ _. D.state desk.new ≡ appended Port.Tree (tree_bytes tree.now) (D.state desk.old))
        (λ _. FailsAfterWriting Port.Tree (tree_bytes tree.now) (D.state desk.old) (D.state desk.new)) }
{
    let mut piecer = Piecer::new(Port::Tree);
    piecer.put(desk, &header(tree))?;
    put_merges(&mut piecer, desk, tree.merges())?;
    piecer.finish(desk)
}

/// The text `AFFTRE01`, the axes, the two numbers of the threshold, and the number of merges.
fn header(tree: &Tree) -> [u8; HEADER_LENGTH]
    ensures { result ≡ tree_header tree.now.axes tree.now.threshold (length tree.now.merges) }
{
    let dims = tree.dims();
    let threshold = tree.threshold();
    let mut bytes = [0; HEADER_LENGTH];
    bytes[..8].copy_from_slice(MAGIC);
    LittleEndian::write_u32(&mut bytes[8..], dims.nx());
    LittleEndian::write_u32(&mut bytes[12..], dims.ny());
    LittleEndian::write_u32(&mut bytes[16..], dims.nz());
    LittleEndian::write_u32(&mut bytes[20..], threshold.p());
    LittleEndian::write_u32(&mut bytes[24..], threshold.q());
    LittleEndian::write_u32(&mut bytes[28..], merge_count(tree));
    bytes
}

/// How many merges there are.
fn merge_count(tree: &Tree) -> u32
    ensures { result ≡ length tree.now.merges }
{
    let _limits = tree.dims().voxels();
    tree.merges().len() as u32
}

/// Puts the record of each merge, a block of merges at a time.
fn put_merges<D: Desk>(piecer: &mut Piecer, desk: &mut D, merges: &[Merge]) -> Result<(), Failed>
    requires open { IsOpen piecer.old.port (D.state desk.old) }
    requires sound { piecer.old.failed ≡ false }
    ensures { MatchResult result
        (λ _. Puts (flat_map merge_bytes merges.now) piecer.old piecer.new (D.state desk.old) (D.state desk.new))
        (λ _. FailsToPut (flat_map merge_bytes merges.now) piecer.old piecer.new (D.state desk.old) (D.state desk.new)) }
{
    let mut block = [0; BLOCK_LENGTH];
    let mut done = 0;
    while done < merges.len() {
        let count = BLOCK_MERGES.min(merges.len() - done);
        let bytes = &mut block[..RECORD_LENGTH * count];
        write_merges(&merges[done..done + count], bytes);
        piecer.put(desk, bytes)?;
        done += count;
    }
    Ok(())
}

/// Writes the records of these merges one after another.
fn write_merges(merges: &[Merge], bytes: &mut [u8])
    requires { length bytes.old ≡ 32 * length merges.now }
    ensures { bytes.new ≡ flat_map merge_bytes merges.now }
{
    for (i, merge) in merges.iter().enumerate() {
        write_merge(merge, bytes, RECORD_LENGTH * i);
    }
}

/// Writes the record of a merge at this place.
fn write_merge(merge: &Merge, bytes: &mut [u8], at: usize)
    requires { at + 32 ≤ length bytes.old }
    ensures { take (at + 32) bytes.new ≡ take at bytes.old ++ merge_bytes merge.now }
{
    bytes[at..at + RECORD_LENGTH].copy_from_slice(&record(merge));
}

/// The two names of a merge, and the three numbers of its contact.
fn record(merge: &Merge) -> [u8; RECORD_LENGTH]
    ensures { result ≡ merge_bytes merge.now }
{
    let mut bytes = [0; RECORD_LENGTH];
    LittleEndian::write_u32(&mut bytes[0..], merge.survivor);
    LittleEndian::write_u32(&mut bytes[4..], merge.absorbed);
    LittleEndian::write_u64(&mut bytes[8..], merge.contact.sum());
    LittleEndian::write_u64(&mut bytes[16..], merge.contact.count());
    LittleEndian::write_u64(&mut bytes[24..], u64::from(merge.contact.tie()));
    bytes
}
