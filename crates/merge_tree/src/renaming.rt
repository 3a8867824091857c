ghost use Rattle.std.specs.Prelude.{◌≡◌, ◌+◌, ◌≤◌, ◌^◌, All, MatchResult, IfOk, map};
ghost use Rattle.std.specs.List.{range_with_len};
ghost use Rattle.agglo_model.specs.Greedy.{after_merges};
ghost use Rattle.merge_tree.specs.Renaming.{HasSmallNames, NamesBelow, HoldsFinalNames, final_label};

use crate::merge::Merge;
use agglo_model::Memory;
use rayon::prelude::*;
use seg_base::Labels;
use std::alloc::Global;
use std::thread::Threads;

/// Renames the labels by each merge in turn: where the absorbed name stood, the survivor stands.
/// Where there is no memory, the labels stay as they were.
pub fn apply(alloc: Global, labels: &mut Labels, merges: &[Merge]) -> Result<(), Memory>
    requires { All HasSmallNames merges.now }
    ensures { MatchResult result
        (λ _. labels.new ≡ record labels.old { labels = after_merges labels.old.labels merges.now })
        (λ _. labels.new ≡ labels.old) }
{
    let names = final_names(alloc, merges)?;
    rename(labels, &names);
    Ok(())
}

/// The labels renamed as by `apply`, in several threads. Where there is no memory, they are given up.
pub fn apply_by_threads<R: Threads + Sync>(
    rt: &R,
    alloc: Global,
    labels: Labels,
    merges: &[Merge],
) -> Result<Labels, Memory>
    requires small { All HasSmallNames merges.now }
    ensures { IfOk result (λ renamed. renamed ≡ record labels { labels = after_merges labels.labels merges.now }) }
{
    let names = final_names(alloc, merges)?;
    let dims = *labels.dims();
    let mut list = labels.into_list();
    rename_by_threads(rt, &mut list, &names);
    Ok(Labels::of(&dims, list))
}

/// The name that each name ends as, for all names up to the greatest that a merge has. The merges are
/// gone through from the last to the first, so that the survivor's final name is known when it is asked
/// for.
fn final_names(alloc: Global, merges: &[Merge]) -> Result<Vec<u32>, Memory>
    requires { All HasSmallNames merges.now }
    ensures { IfOk result (λ names. HoldsFinalNames merges.now names.items) }
{
    let mut names = names_below(alloc, greatest_name(merges) + 1)?;
    for i in (0..merges.len()).rev() {
        let merge = &merges[i];
        names[merge.absorbed as usize] = names[merge.survivor as usize];
    }
    Ok(names)
}

/// The names below a limit, in order: each has its own name.
fn names_below(alloc: Global, limit: u32) -> Result<Vec<u32>, Memory>
    ensures { IfOk result (λ names. names.items ≡ range_with_len 0 limit) }
{
    let names = (0..limit).collect(alloc)?;
    Ok(names)
}

/// The greatest name of the merges, or 0 where there is none.
fn greatest_name(merges: &[Merge]) -> u32
    requires { All HasSmallNames merges.now }
    ensures most { result ≤ 2 ^ 28 }
    ensures names { All (NamesBelow (result + 1)) merges.now }
{
    let mut greatest: u32 = 0;
    for merge in merges {
        greatest = greatest.max(merge.survivor).max(merge.absorbed);
    }
    greatest
}

/// Gives each label the name that the list has for it.
fn rename(labels: &mut Labels, names: &[u32])
    requires { All (λ name. name ≤ 2 ^ 28) names.now }
    ensures { labels.new ≡ record labels.old { labels = map (final_label names.now) labels.old.labels } }
{
    for voxel in 0..labels.dims().voxels() {
        let name = label_in(names, labels.get(voxel));
        labels.set(voxel, name);
    }
}

/// Gives each label the name that the list has for it, in several threads.
fn rename_by_threads<R: Threads + Sync>(rt: &R, labels: &mut [u32], names: &[u32])
    ensures { labels.new ≡ map (final_label names.now) labels.old }
{
    par_for_each_mut(
        rt,
        labels,
        |_: usize, label: &mut u32|
            ensures { label.new ≡ final_label names.entry.now label.old }
        {
            *label = label_in(names, *label);
        },
    );
}

/// The name that the list has for this label, or the label where it has none.
#[tactic(auto, using(std::proofs::lemmas::Bool::Decides::nat_tests))]
fn label_in(names: &[u32], label: u32) -> u32
    ensures { result ≡ final_label names.now label }
{
    let label_place = label as usize;
    if label_place < names.len() {
        names[label_place]
    } else {
        label
    }
}
