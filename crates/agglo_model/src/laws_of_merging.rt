//! Laws of whole runs of merges. Each function has no body: its contract is the law, over the
//! definitions alone. Greedy agglomeration is that of a whole image without division in Lu, Zlateski and
//! Seung, arXiv 2106.10795 (2021); exact means and their ties are this project's.

ghost use Rattle.agglo_model.specs.MergeLaws.{AnyOrder, Diamond, GreedyFalls, GreedyIsLawful, GreedyRunsExist, OneGreedyRun, SortedIsGreedy};

/// Two different reciprocal pairs have no name in common, so merging one of them leaves the other reciprocal, with
/// the contact that it had, and the labels do not tell which of the two was merged first.
pub fn reciprocal_merges_commute()
    ensures { Diamond }
{}

/// The contacts of greedy merges fall strictly in pair order.
#[tactic(auto, using(crate::proofs::Falling::greedy_falls))]
pub fn greedy_contacts_fall()
    ensures { GreedyFalls }
{}

/// Merging reciprocal pairs in whatever order, until none is left, ends in the labels of greedy
/// agglomeration, by the same merges in some order.
#[tactic(auto, using(crate::proofs::MutualRuns::any_order))]
pub fn any_order_is_greedy()
    ensures { AnyOrder }
{}

/// The merges of a run in whatever order, put into pair order, are a greedy run, and it ends in the same labels.
pub fn sorted_merges_are_greedy()
    ensures { SortedIsGreedy }
{}

/// Greedy agglomeration ends: from any labels there is a greedy run.
#[tactic(auto, using(crate::proofs::GreedyRuns::greedy_runs_exist))]
pub fn greedy_runs_exist()
    ensures { GreedyRunsExist }
{}

/// There is one greedy run from given labels: two have the same merges, and so the same labels at the end.
pub fn one_greedy_run()
    ensures { OneGreedyRun }
{}

/// The merges of greedy agglomeration are a lawful list, where affinities are bytes and no label is above the
/// number of voxels.
#[tactic(auto, using(crate::proofs::LawfulMerges::greedy_is_lawful))]
pub fn greedy_merges_are_lawful()
    ensures { GreedyIsLawful }
{}
