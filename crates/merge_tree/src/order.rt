ghost use Rattle.std.specs.Prelude.{◌≡◌, IfOk, IsOk, All, AllPairs, IsPermutation};
ghost use Rattle.std.specs.Ordering.{is_lt};
ghost use Rattle.agglo_model.specs.Greedy.{RanksFirst};
ghost use Rattle.agglo_model.specs.MergeLaws.{AreFalling};
ghost use Rattle.merge_tree.specs.Order.{goes_first, HasEdges, DifferInRank};

use crate::merge::Merge;
use agglo_model::Memory;
use mean_fraction::rank;
use rayon::prelude::*;
use std::alloc::Global;
use std::cmp::Ordering;
use std::thread::Threads;

/// The merges in pair order: the one with the greatest mean first, and of equal means the one with
/// the smallest tie. They are sorted where they stand, so no memory is taken, and it does not fail.
pub fn in_order(_alloc: Global, merges: Vec<Merge>) -> Result<Vec<Merge>, Memory>
    requires { AllPairs DifferInRank merges.items }
    ensures always { IsOk result }
    ensures same_merges { IfOk result (λ sorted. IsPermutation merges.items sorted.items) }
    ensures falling { IfOk result (λ sorted. AreFalling sorted.items) }
    ensures each_first { IfOk result (λ sorted. AllPairs RanksFirst sorted.items) }
{
    have_edges(&merges);
    let mut sorted = merges;
    sorted.sort_unstable_by(|a, b| compare(a, b));
    Ok(sorted)
}

/// Sorts merges in pair order as `in_order` does, in several threads.
pub fn sort_by_threads<R: Threads + Sync>(rt: &R, merges: &mut [Merge])
    requires { AllPairs DifferInRank merges.old }
    ensures same_merges { IsPermutation merges.old merges.new }
    ensures falling { AreFalling merges.new }
    ensures each_first { AllPairs RanksFirst merges.new }
{
    have_edges(merges);
    par_sort_unstable_by(
        rt,
        merges,
        |a: &Merge, b: &Merge| -> Ordering
            ensures { is_lt result ≡ goes_first a.now b.now }
        { compare(a, b) },
    );
}

/// Compares two merges by their contacts: the one that comes first in pair order is the less.
fn compare(a: &Merge, b: &Merge) -> Ordering
    ensures { is_lt result ≡ goes_first a.now b.now }
{
    let _edges = (a.contact.count(), b.contact.count());
    rank(&b.contact, &a.contact)
}

/// Says for a whole list what is so of each contact, that it has an edge. It does nothing.
fn have_edges(merges: &[Merge])
    ensures { All HasEdges merges.now }
{
    for merge in merges {
        let _edges = merge.contact.count();
    }
}
