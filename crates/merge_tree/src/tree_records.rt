ghost use Rattle.std.specs.Prelude.{◌≡◌, ◌≢◌, ◌+◌, ◌*◌, ◌≤◌, ◌<◌, [], false, true, length, None, MatchOption, MatchResult};
ghost use Rattle.agglo_model.specs.Axes.{voxel_count};
ghost use Rattle.agglo_model.specs.TreeFile.{has_numbers, follows, merge_at, merges_in, record_flaw, records_flaw};
ghost use Rattle.merge_tree.specs.TreeReading.{Tells};
ghost use Rattle.merge_tree.specs.TreeRecords.{MarksAbsorbed, has_unmarked_names};
ghost use Rattle.merge_tree.specs.declared.tree_fault.TreeFault.TheVariants.{Memory as WantOfMemory};

use crate::merge::Merge;
use crate::tree_fault::TreeFault;
use mean_fraction::{Contact, Threshold, rank};
use seg_base::Dims;
use seg_io::{u32_at, u64_at};
use std::alloc::Global;
use std::cmp::Ordering;
use std::marker::Model;

/// The length of a merge's record in bytes.
pub const RECORD_LENGTH: usize = 32;

/// The numbers of a record, whatever they are.
#[derive(Clone, Copy)]
struct RawMerge {
    survivor: u32,
    absorbed: u32,
    sum: u64,
    count: u64,
    tie: u64,
}

impl Model for RawMerge {
    ghost use Rattle.agglo_model.specs.Greedy.{Merge as MergeNumbers};

    ghost Value = { MergeNumbers };

    ghost view = { λ r. record { survivor = r.survivor; absorbed = r.absorbed; contact = record { sum = r.sum; count = r.count; tie = r.tie } } };

    ghost inverse = { λ m. record { survivor = m.survivor; absorbed = m.absorbed; sum = m.contact.sum; count = m.contact.count; tie = m.contact.tie } };
}

/// What a header says of the records.
#[derive(Clone, Copy)]
pub struct Head {
    /// The axes of the volume.
    pub dims: Dims,
    /// The threshold that all merges reach.
    pub threshold: Threshold,
    /// How many records there are.
    pub merges: u32,
    pub ghost few: { merges < voxel_count dims },
}

/// The merges of a body that has the length that the header says: the first flaw of its records, in
/// their order, or a lawful list.
pub fn lawful_merges(alloc: Global, head: &Head, body: &[u8]) -> Result<Vec<Merge>, TreeFault>
    requires { length body.now ≡ 32 * head.now.merges }
    ensures { MatchResult result
        (λ merges. (records_flaw head.now.dims head.now.threshold [] (merges_in head.now.merges body.now) ≡ None)
        × (merges.items ≡ merges_in head.now.merges body.now))
        (λ fault. fault ≢ WantOfMemory
        → Tells fault (records_flaw head.now.dims head.now.threshold [] (merges_in head.now.merges body.now))) }
{
    let mut absorbed = Vec::from_elem(alloc, false, head.dims.voxels() as usize + 1)?;
    let mut merges = Vec::with_capacity(alloc, head.merges as usize)?;
    for i in 0..head.merges {
        let raw = record_at(body, RECORD_LENGTH * i as usize);
        let merge = judge(head, &absorbed, &merges, i, raw)?;
        absorbed[raw.absorbed as usize] = true;
        merges.push(merge)?;
    }
    Ok(merges)
}

/// The record from this offset.
fn record_at(body: &[u8], at: usize) -> RawMerge
    requires { at + 32 ≤ length body.now }
    ensures { result ≡ merge_at at body.now }
{
    RawMerge {
        survivor: u32_at(body, at),
        absorbed: u32_at(body, at + 4),
        sum: u64_at(body, at + 8),
        count: u64_at(body, at + 16),
        tie: u64_at(body, at + 24),
    }
}

/// The merge of record number `i`, which comes after these merges, or the first flaw of it. The names
/// that they absorbed are marked.
fn judge(
    head: &Head,
    absorbed: &[bool],
    earlier: &[Merge],
    i: u32,
    raw: RawMerge,
) -> Result<Merge, TreeFault>
    requires marked { MarksAbsorbed (voxel_count head.now.dims) earlier.now absorbed.now }
    requires number { i ≡ length earlier.now }
    ensures { MatchResult result
        (λ merge. (record_flaw head.now.dims head.now.threshold earlier.now raw ≡ None) × (merge ≡ raw))
        (λ fault. Tells fault (record_flaw head.now.dims head.now.threshold earlier.now raw)) }
{
    if !can_merge(&head.dims, absorbed, raw) {
        return Err(TreeFault::Names(i));
    }
    let Some(contact) = contact_of(&head.dims, raw) else {
        return Err(TreeFault::Contact(i));
    };
    let merge = Merge {
        survivor: raw.survivor,
        absorbed: raw.absorbed,
        contact,
    };
    if !is_next(earlier, &merge) {
        return Err(TreeFault::Order(i));
    }
    if !head.threshold.reaches(&contact) {
        return Err(TreeFault::Below(i));
    }
    Ok(merge)
}

/// Whether the names are two of voxels, the smaller first, and none of them is marked as absorbed.
fn can_merge(dims: &Dims, absorbed: &[bool], raw: RawMerge) -> bool
    requires { length absorbed.now ≡ voxel_count dims.now + 1 }
    ensures { result ≡ has_unmarked_names dims.now absorbed.now raw }
{
    raw.survivor >= 1
        && raw.survivor < raw.absorbed
        && raw.absorbed <= dims.voxels()
        && !absorbed[raw.survivor as usize]
        && !absorbed[raw.absorbed as usize]
}

/// The contact of the record's numbers, where a volume of these axes can have it.
fn contact_of(dims: &Dims, raw: RawMerge) -> Option<Contact>
    ensures { MatchOption result (has_numbers dims.now raw.contact ≡ false)
        (λ contact. (has_numbers dims.now raw.contact ≡ true) × (contact ≡ raw.contact)) }
{
    let edges = dims.body_len();
    if raw.count > u64::from(edges) || raw.tie >= u64::from(edges) {
        return None;
    }
    Contact::of(raw.sum, raw.count, raw.tie as u32)
}

/// Whether the last of the earlier merges comes before this one in pair order.
fn is_next(earlier: &[Merge], merge: &Merge) -> bool
    ensures { result ≡ follows earlier.now merge.now }
{
    match earlier.last() {
        None => true,
        Some(last) => rank(&last.contact, &merge.contact) == Ordering::Greater,
    }
}
