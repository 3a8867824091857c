ghost use Rattle.std.specs.Prelude.{◌≡◌, ◌≢◌, ◌≤◌, ◌+◌, true, length, None, MatchResult};
ghost use Rattle.agglo_model.specs.VolumeFile.{header_axes};
ghost use Rattle.agglo_model.specs.TreeFile.{MergeTree, header_flaw, header_threshold, header_merges, body_flaw, merges_in};
ghost use Rattle.merge_tree.specs.TreeReading.{ReadsTree, FailsToReadTree, Tells};
ghost use Rattle.merge_tree.specs.TreeHead.{ReadsHead, FailsToReadHead, SaysHead};
ghost use Rattle.merge_tree.specs.declared.tree_fault.TreeFault.TheVariants.{Memory as WantOfMemory};

use crate::tree::Tree;
use crate::tree_fault::TreeFault;
use crate::tree_input::read_up_to;
use crate::tree_records::{Head, RECORD_LENGTH, lawful_merges};
use mean_fraction::Threshold;
use seg_base::Dims;
use seg_io::{Desk, HEADER_LENGTH, fill, u32_at};
use std::alloc::Global;

/// The text that a tree file begins with.
pub const MAGIC: &[u8] = b"AFFTRE01";

/// Reads a tree file to its end: the header, then the records. Answers the first fault of the file,
/// `Read` or `Memory`.
///
/// Memory is taken for the records that come, and not for those that the header claims. All of them
/// are read before the first one is judged, and one byte more where there is one. While records are
/// judged, a byte for each voxel of the axes tells which names were absorbed.
pub fn read_tree<D: Desk>(alloc: Global, desk: &mut D) -> Result<Tree, TreeFault>
    requires { (D.state desk.old).has_input ≡ true }
    ensures { MatchResult result
        (λ tree. ReadsTree tree (D.state desk.old) (D.state desk.new))
        (λ fault. FailsToReadTree fault (D.state desk.old) (D.state desk.new)) }
{
    let head = read_head(desk)?;
    let most = RECORD_LENGTH * head.merges as usize + 1;
    let body = read_up_to(alloc, desk, most)?;
    tree_of(alloc, &head, &body)
}

/// Reads the header of a tree file, and nothing after it.
fn read_head<D: Desk>(desk: &mut D) -> Result<Head, TreeFault>
    requires { (D.state desk.old).has_input ≡ true }
    ensures { MatchResult result
        (λ head. ReadsHead head (D.state desk.old) (D.state desk.new))
        (λ fault. FailsToReadHead fault (D.state desk.old) (D.state desk.new)) }
{
    let mut header = [0; HEADER_LENGTH];
    let got = fill(desk, &mut header)?;
    head_of(&header[..got])
}

/// What the bytes of a header say.
fn head_of(header: &[u8]) -> Result<Head, TreeFault>
    requires { length header.now ≤ HEADER_LENGTH }
    ensures { MatchResult result
        (λ head. (header_flaw header.now ≡ None) × SaysHead head header.now)
        (λ fault. Tells fault (header_flaw header.now)) }
{
    if header.len() < HEADER_LENGTH {
        return Err(TreeFault::ShortHeader(header.len() as u32));
    }
    if !header.starts_with(MAGIC) {
        return Err(TreeFault::Magic);
    }
    let dims = Dims::new(u32_at(header, 8), u32_at(header, 12), u32_at(header, 16))?;
    let Ok(threshold) = Threshold::new(u32_at(header, 20), u32_at(header, 24)) else {
        return Err(TreeFault::Denominator);
    };
    let merges = u32_at(header, 28);
    if merges >= dims.voxels() {
        return Err(TreeFault::Count(merges));
    }
    Ok(Head {
        dims,
        threshold,
        merges,
    })
}

/// What a header and the bytes that follow it say.
fn tree_of(alloc: Global, head: &Head, body: &[u8]) -> Result<Tree, TreeFault>
    ensures { MatchResult result
        (λ tree. (body_flaw head.now.dims head.now.threshold head.now.merges body.now ≡ None)
        × (tree ≡ record { axes = head.now.dims; threshold = head.now.threshold; merges = merges_in head.now.merges body.now }))
        (λ fault. fault ≢ WantOfMemory
        → Tells fault (body_flaw head.now.dims head.now.threshold head.now.merges body.now)) }
{
    let length = RECORD_LENGTH * head.merges as usize;
    if body.len() < length {
        return Err(TreeFault::Truncated(body.len() as u64));
    }
    if body.len() > length {
        return Err(TreeFault::Trailing);
    }
    let merges = lawful_merges(alloc, head, body)?;
    Ok(Tree::of(&head.dims, head.threshold, merges))
}
