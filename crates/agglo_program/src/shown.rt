ghost use Rattle.std.specs.Prelude.{◌≡◌, ◌++◌, IfOk, length, string_bytes};
ghost use Rattle.std.specs.List.{flat_map};
ghost use Rattle.agglo_program.specs.Shown.{dims_line, threshold_lines, names_part, contact_part, merge_line, shown};

use agglo_model::Memory;
use mean_fraction::Threshold;
use merge_tree::{Merge, Tree};
use seg_base::Dims;
use std::alloc::Global;

/// What `show` prints of a merge tree, in plain decimals: the axes, the threshold, the number of merges, and a line
/// for each merge.
pub fn tree_note(alloc: Global, tree: &Tree) -> Result<String, Memory>
    ensures { IfOk result (λ note. string_bytes note ≡ shown tree.now) }
{
    let mut note = String::new(alloc);
    add_dims(&mut note, tree.dims())?;
    add_threshold(&mut note, tree.threshold(), tree.merges().len())?;
    add_merges(&mut note, tree.merges())?;
    Ok(note)
}

fn add_dims(note: &mut String, dims: &Dims) -> Result<(), Memory>
    ensures { IfOk result (λ _. string_bytes note.new ≡ string_bytes note.old ++ dims_line dims.now) }
{
    let (nx, ny, nz) = (dims.nx(), dims.ny(), dims.nz());
    write!(note, "dims {nx} {ny} {nz}\n")?;
    Ok(())
}

fn add_threshold(note: &mut String, threshold: &Threshold, merges: usize) -> Result<(), Memory>
    ensures { IfOk result
        (λ _. string_bytes note.new ≡ string_bytes note.old ++ threshold_lines threshold.now merges) }
{
    let (p, q) = (threshold.p(), threshold.q());
    write!(note, "threshold {p}/{q}\nrecords {merges}\n")?;
    Ok(())
}

fn add_merges(note: &mut String, merges: &[Merge]) -> Result<(), Memory>
    ensures { IfOk result (λ _. string_bytes note.new ≡ string_bytes note.old ++ flat_map merge_line merges.now) }
{
    for merge in merges {
        add_names(note, merge)?;
        add_contact(note, merge)?;
    }
    Ok(())
}

fn add_names(note: &mut String, merge: &Merge) -> Result<(), Memory>
    ensures { IfOk result (λ _. string_bytes note.new ≡ string_bytes note.old ++ names_part merge.now) }
{
    let (survivor, absorbed) = (merge.survivor, merge.absorbed);
    write!(note, "{survivor} {absorbed} ")?;
    Ok(())
}

fn add_contact(note: &mut String, merge: &Merge) -> Result<(), Memory>
    ensures { IfOk result (λ _. string_bytes note.new ≡ string_bytes note.old ++ contact_part merge.now.contact) }
{
    let contact = merge.contact;
    let (sum, count, tie) = (contact.sum(), contact.count(), contact.tie());
    write!(note, "{sum}/{count} {tie}\n")?;
    Ok(())
}
